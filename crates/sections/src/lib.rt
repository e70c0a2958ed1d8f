//! The sections of a message: what each is checked for, and what it says.
#![tactic(auto)]

pub mod frame;
pub mod identification;
pub mod packing;
pub mod parts;
pub mod rules;
pub mod tables;
