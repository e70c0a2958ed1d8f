//! Run strings: for each run of equal cells a level octet and the digits of its length. Throughout, `v` is the highest
//! level that a packing provides for: octets up to `v` are levels, and those above it are digits.
#![tactic(auto)]

pub mod checking;
pub mod measuring;
pub mod reading;
