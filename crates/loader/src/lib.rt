//! The loader: it holds a message that loads, tells its fields, and shows them as charts.
#![tactic(auto)]

pub mod fields;
pub mod holder;
pub mod lamps;
pub mod packed;
