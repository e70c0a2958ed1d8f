//! The listing of a message: its figures and those of its fields, or why it is refused.
#![tactic(auto)]

pub mod figures;
pub mod listing;
