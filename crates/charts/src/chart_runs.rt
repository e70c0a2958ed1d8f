//! The runs of a chart.
ghost use Rattle.std.specs.Prelude.{◌≡◌, ◌-◌, ◌*◌};
ghost use Rattle.std.specs.Iterator.{at_most};
ghost use Rattle.charts.specs.ChartRuns.{StepsOn, cells_of};

use crate::chart::{Chart, Run};

/// The runs of a lent chart, each with its first cell, from the first to the last.
#[derive(Drop)]
pub struct ChartRuns<'c, C> {
    chart: &'c mut C,
    cell: usize,
}

impl<'c, C: Chart> ChartRuns<'c, C> {
    /// All runs of the chart.
    pub fn over(chart: &'c mut C) -> ChartRuns<'c, C>
        ensures same_reference { result.chart.ghost_name ≡ chart.entry.ghost_name }
        ensures same { result.chart.now ≡ chart.old }
        ensures first { result.cell ≡ 0 }
    {
        ChartRuns { chart, cell: 0 }
    }
}

impl<C: Chart> Iterator for ChartRuns<'_, C> {
    type Item = (usize, Run);

    ghost next_gives = { StepsOn C.Chart.picture };

    ghost remaining = { λ s. at_most (cells_of (C.Chart.picture s.chart.now) - s.cell) };

    fn next(&mut self) -> Option<(usize, Run)> {
        let first = self.cell;
        let run = self.chart.run(first);
        if run.length == 0 {
            return None;
        }
        self.cell += run.length;
        Some((first, run))
    }
}
