//! What a chart is.
ghost use Rattle.std.specs.Prelude.{◌≡◌};
ghost use Rattle.charts.specs.Pictures.{Picture, Lawful, RunAt};

use crate::size::Size;

/// Cells of one level, one after another; by default none, of level 0, as past the last cell.
#[derive(Clone, Copy, PartialEq, Eq, Debug, Default)]
pub struct Run {
    pub level: u8,
    pub length: usize,
}

/// A grid of levels, its picture. It never refuses, and no question changes its picture.
pub trait Chart {
    /// What the chart shows.
    ghost picture: { Self → Picture };

    /// The width and the height.
    fn size(&self) -> Size
        ensures width { result.width ≡ (picture self.now).width }
        ensures height { result.height ≡ (picture self.now).height };

    // a run of no cells and no `None` past the last cell: what a chart answers there is a rule of charts
    /// The level of a cell, counted from 0, row by row, and how many cells from it on are known to have that level;
    /// level 0 and no cells past the last cell.
    fn run(&mut self, cell: usize) -> Run
        ensures answer { RunAt (picture self.old) cell result.level result.length }
        ensures same { picture self.new ≡ picture self.old };

    /// The size is within its limits, and each cell has a level of 255 at most.
    ghost lawful: { (c : Self) → Lawful (picture c) };
}

/// A lent chart is a chart.
impl<'a, C: Chart> Chart for &'a mut C {
    ghost picture = { λ c. C.Chart.picture c.now };

    ghost lawful = { λ c. C.Chart.lawful c.now };

    fn size(&self) -> Size {
        (**self).size()
    }

    fn run(&mut self, cell: usize) -> Run {
        (**self).run(cell)
    }
}
