//! A chart within a row.
ghost use Rattle.std.specs.Prelude.{◌≡◌};
ghost use Rattle.charts.specs.Pictures.{RowRun};

use crate::chart::{Chart, Run};

/// The run at a row and a column of a chart, whose cells go on beyond its sides with level 0: within that row, and of
/// `most` cells at most.
pub(crate) fn run_in_row<C: Chart>(chart: &mut C, row: usize, column: usize, most: usize) -> Run
    ensures answer { RowRun (C.picture chart.old) row column most result.level result.length }
    ensures same { C.picture chart.new ≡ C.picture chart.old }
{
    let size = chart.size();
    if row >= size.height || column >= size.width {
        return Run {
            level: 0,
            length: most,
        };
    }
    let inside = size.width - column;
    let run = chart.run(row * size.width + column);
    if run.level == 0 && run.length >= inside {
        return Run {
            level: 0,
            length: most,
        };
    }
    Run {
        level: run.level,
        length: run.length.min(inside).min(most),
    }
}
