//! Charts: everything that shows a grid of levels answers its size and its runs, under one contract.
#![tactic(auto)]

pub mod cell;
pub mod cells;
pub mod chart;
pub mod chart_runs;
pub mod level_map;
pub mod levels;
pub mod overlay;
pub mod recoding;
mod row;
pub mod size;
pub mod window;
