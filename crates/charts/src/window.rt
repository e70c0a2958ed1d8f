//! A part of a chart.
ghost use Rattle.std.specs.Prelude.{◌≡◌, ◌≤◌};
ghost use Rattle.format.specs.Limits.{Sized};

use crate::chart::{Chart, Run};
use crate::row::run_in_row;
use crate::size::Size;
use format::fault::{ChartFault, Fault};
use format::limits::MOST_SIDE;

/// A window over the chart below: its own size, and the column and the row of the chart below where it begins.
#[derive(Drop)]
pub struct Window<C> {
    below: C,
    size: Size,
    column: usize,
    row: usize,
    ghost begins: { (column ≤ 16383) × (row ≤ 16383) },
}

impl<C: Chart> Window<C> {
    ghost use Rattle.charts.specs.Pictures.{Shown};
    ghost use Rattle.charts.specs.Windows.{windowed, window_picture};

    /// One cell: that of column 0 and row 0 below.
    pub fn over(below: C) -> Window<C>
        ensures below { result.below ≡ below }
        ensures picture { window_picture C.Chart.picture result ≡ windowed 1 1 0 0 (C.Chart.picture below) }
    {
        Window {
            below,
            size: Size::default(),
            column: 0,
            row: 0,
        }
    }

    /// Shows that many columns and rows from a column and a row on; refused with 14 where the size or the start is
    /// outside its limits, and then it shows what it did.
    pub fn place(
        &mut self,
        width: usize,
        height: usize,
        column: usize,
        row: usize,
    ) -> Result<(), Fault>
        ensures below { self.new.below ≡ self.old.below }
        ensures picture { Shown (Sized width height × ((column ≤ 16383) × (row ≤ 16383)))
            (windowed width height column row (C.Chart.picture self.old.below))
            (window_picture C.Chart.picture self.old) (window_picture C.Chart.picture self.new) result }
    {
        let size = Size::new(width, height)?;
        if column >= MOST_SIDE as usize || row >= MOST_SIDE as usize {
            return Err(ChartFault::Limits.into());
        }
        self.size = size;
        self.column = column;
        self.row = row;
        Ok(())
    }

    // no trait for this and the recoding's: it would have one method, which hands out a field
    /// Hands the chart below back.
    pub fn into_below(self) -> C
        ensures { result ≡ self.below }
    {
        self.below
    }
}

impl<C: Chart> Chart for Window<C> {
    ghost use Rattle.charts.specs.Windows.{window_picture};
    ghost use Rattle.charts.specs.Lawfulness.{lawful_windowed};

    ghost picture = { window_picture C.Chart.picture };

    ghost lawful = { λ c. lawful_windowed c.size.width c.size.height c.column c.row (C.Chart.picture c.below) c.size.sized (C.Chart.lawful c.below) };

    fn size(&self) -> Size {
        self.size
    }

    fn run(&mut self, cell: usize) -> Run {
        let size = self.size;
        if cell >= size.cells() {
            return Run::default();
        }
        let row = self.row + cell / size.width;
        let column = self.column + cell % size.width;
        run_in_row(&mut self.below, row, column, size.width - cell % size.width)
    }
}
