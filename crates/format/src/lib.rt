//! What every layer shares: limits, numbers in octets, writing into a lent buffer, and faults.
#![tactic(auto)]

pub mod fault;
pub mod limits;
pub mod numbers;
pub mod section;
pub mod text;
pub mod writing;
