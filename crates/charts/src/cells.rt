//! A lent buffer of cells.
ghost use Rattle.std.specs.Prelude.{◌≡◌, ◌*◌, ◌≤◌, map, length};
ghost use Rattle.format.specs.Limits.{Sized};

use crate::cell::{Cell, stretch};
use crate::chart::{Chart, Run};
use crate::size::Size;
use format::fault::{ChartFault, Fault};

/// A buffer of cells as a chart of some size; a new one has no buffer.
#[derive(Drop)]
pub struct Cells<'a, C> {
    cells: &'a [C],
    size: Size,
    ghost held: { length cells.now ≤ size.width * size.height },
}

impl<'a, C: Cell> Cells<'a, C> {
    ghost use Rattle.charts.specs.Pictures.{pictured, blank, Shown};
    ghost use Rattle.charts.specs.Cells.{cells_picture};

    /// One cell of level 0.
    pub fn new() -> Cells<'a, C>
        ensures { cells_picture C.Cell.tells result ≡ blank }
    {
        Cells {
            cells: &[],
            size: Size::default(),
        }
    }

    /// Shows a buffer of cells, row by row; refused with 14 where the size is outside its limits or the buffer has
    /// another number of cells, and then it shows what it did.
    pub fn open(&mut self, cells: &'a [C], width: usize, height: usize) -> Result<(), Fault>
        ensures { Shown (Sized width height × (length cells.now ≡ width * height))
            (pictured width height (map C.Cell.tells cells.now))
            (cells_picture C.Cell.tells self.old) (cells_picture C.Cell.tells self.new) result }
    {
        let size = Size::new(width, height)?;
        if cells.len() != size.cells() {
            return Err(ChartFault::Limits.into());
        }
        *self = Cells { cells, size };
        Ok(())
    }
}

/// Answers reach to the end of the row at most, so that no question looks at more than a row of cells.
impl<'a, C: Cell> Chart for Cells<'a, C> {
    ghost use Rattle.charts.specs.Cells.{cells_picture};
    ghost use Rattle.charts.specs.Lawfulness.{lawful_cells};

    ghost picture = { cells_picture C.Cell.tells };

    ghost lawful = { lawful_cells C.Cell.tells C.Cell.octet };

    fn size(&self) -> Size {
        self.size
    }

    fn run(&mut self, cell: usize) -> Run {
        let cells = self.cells;
        if cell >= cells.len() {
            return Run {
                level: 0,
                length: self.size.cells().saturating_sub(cell),
            };
        }
        let left = self.size.width - cell % self.size.width;
        let end = cells.len().min(cell + left);
        stretch(&cells[cell..end])
    }
}
