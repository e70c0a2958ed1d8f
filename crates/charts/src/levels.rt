//! The levels of any chart.
ghost use Rattle.std.specs.Prelude.{◌≡◌, length, MatchResult, ◌≢◌};
ghost use Rattle.format.specs.Refusals.{refusal, told};
ghost use Rattle.format.specs.declared.fault.Layer.TheVariants as layer;

use crate::chart::Chart;
use crate::chart_runs::ChartRuns;
use format::fault::{ChartFault, Fault};

/// Writes the level of each cell, row by row, into a buffer of as many octets; refused with 14 where the buffer has
/// another number of them, and then it stays as it is.
pub fn write_levels<C: Chart>(chart: &mut C, buffer: &mut [u8]) -> Result<(), Fault>
    ensures levels { MatchResult result
        (λ _. buffer.new ≡ (C.picture chart.old).levels)
        (λ e. (length buffer.old ≢ length (C.picture chart.old).levels) × (refusal e ≡ told 14 layer.Charts 0 0 0) × (buffer.new ≡ buffer.old)) }
    ensures same { C.picture chart.new ≡ C.picture chart.old }
{
    let cells = chart.size().cells();
    if buffer.len() != cells {
        return Err(ChartFault::Limits.into());
    }
    for (cell, run) in ChartRuns::over(chart) {
        let next = cell + run.length;
        buffer[cell..next].fill(run.level);
    }
    Ok(())
}
