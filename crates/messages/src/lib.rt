//! A message: which sections may follow one another, and what a whole message means.
#![tactic(auto)]

pub mod field;
pub mod order;
pub mod reading;
