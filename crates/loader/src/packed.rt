//! A field of a loaded message as a chart.
ghost use Rattle.std.specs.Prelude.{◌≡◌, ℕ, ◌+◌, ◌*◌, ◌<◌, ◌≤◌, length, drop, slice_index, []};
ghost use Rattle.runs.specs.Runs.{leading_digits};
ghost use Rattle.runs.specs.Handed.{cells_in};
ghost use Rattle.loader.specs.Reading.{cells_from, Left, Rest, Hand};

use crate::holder::Loader;
use charts::chart::{Chart, Run};
use charts::size::Size;
use format::fault::Fault;
use runs::reading::{RunString, read_run};

/// The string of a field, and the run that was answered last: the place after its last digit, its first cell, the cell
/// after its last, and its level; before the first answer the last three are 0.
#[derive(Clone, Copy)]
pub struct Packed<'a> {
    pub(crate) string: RunString<'a>,
    pub(crate) size: Size,
    pub(crate) place: usize,
    pub(crate) first: usize,
    pub(crate) end: usize,
    pub(crate) level: u8,
    ghost full: { length (cells_in string) ≡ size.width * size.height },
    ghost octets: { (k : ℕ) → slice_index (cells_in string) k ≤ 255 },
    ghost led: { leading_digits string.v (drop place string.octets.now) ≡ [] },
    ghost left: { Left (cells_from string place) (size.width * size.height) end },
    ghost rest: { Rest (cells_in string) (cells_from string place) end },
    ghost hand: { Hand (cells_in string) first end level },
}

impl<'a> Packed<'a> {
    ghost use Rattle.charts.specs.Pictures.{blank, pictured};
    ghost use Rattle.loader.specs.Held.{held_fields, asked};
    ghost use Rattle.loader.specs.FieldCharts.{field_picture, packed_picture, Opened};

    /// The cells of a string as a chart of that size, before the first answer.
    fn at_start(string: RunString<'a>, size: Size) -> Packed<'a>
        requires { length (cells_in string) ≡ size.width * size.height }
        ensures picture { packed_picture result ≡ pictured size.width size.height (cells_in string.entry) }
        ensures first { result.first ≡ 0 }
    {
        Packed {
            string,
            size,
            place: read_run(string.octets, 0, string.v).next,
            first: 0,
            end: 0,
            level: 0,
        }
    }

    /// One cell, of level 0.
    pub fn new() -> Packed<'a>
        ensures { packed_picture result ≡ blank }
    {
        let string = RunString { octets: &[0], v: 0 };
        Packed::at_start(string, Size::default())
    }

    /// Shows field `k` from now on; refused with 13 if there is none.
    pub fn open(&mut self, loader: &Loader<'a>, k: usize) -> Result<(), Fault>
        ensures { Opened (asked field_picture (held_fields loader.now) k) (packed_picture self.old) (packed_picture self.new) result }
    {
        let field = loader.field(k)?;
        let size = Size {
            width: field.frame.ni as usize,
            height: field.frame.nj as usize,
        };
        *self = Packed::at_start(field.run_string(), size);
        Ok(())
    }

    // each step says that the picture stays: it relates before and after, which no invariant can
    /// Goes on to the next run.
    fn next_run(&mut self)
        requires { self.old.end < self.old.size.width * self.old.size.height }
        ensures same { packed_picture self.new ≡ packed_picture self.old }
        ensures first { self.new.first ≡ self.old.end }
        ensures some { self.old.end < self.new.end }
        ensures onward { self.old.place < self.new.place }
    {
        let run = read_run(self.string.octets, self.place + 1, self.string.v);
        self.level = self.string.octets[self.place];
        self.first = self.end;
        self.end += run.cells;
        self.place = run.next;
    }

    /// Goes to the run that holds the cell: on from the run that was answered last, or from the string's start where
    /// the cell is before that run.
    fn seek(&mut self, cell: usize)
        requires { cell < self.old.size.width * self.old.size.height }
        ensures same { packed_picture self.new ≡ packed_picture self.old }
        ensures holds { (self.new.first ≤ cell) × (cell < self.new.end) }
        ensures onward { self.old.first ≤ cell → self.old.place ≤ self.new.place }
    {
        if cell < self.first {
            *self = Packed::at_start(self.string, self.size);
        }
        while self.end <= cell {
            self.next_run();
        }
    }
}

impl<'a> Chart for Packed<'a> {
    ghost use Rattle.charts.specs.Pictures.{RunAt};
    ghost use Rattle.loader.specs.FieldCharts.{packed_picture, packed_lawful};

    ghost picture = { packed_picture };

    ghost lawful = { packed_lawful };

    fn size(&self) -> Size {
        self.size
    }

    /// The rest of the run that holds the cell, with no step back unless the cell is before the run answered last.
    fn run(&mut self, cell: usize) -> Run
        ensures answer { RunAt (packed_picture self.old) cell result.level result.length }
        ensures same { packed_picture self.new ≡ packed_picture self.old }
        ensures rest { cell < self.old.size.width * self.old.size.height → cell + result.length ≡ self.new.end }
        ensures onward { self.old.first ≤ cell → self.old.place ≤ self.new.place }
    {
        if cell >= self.size.cells() {
            return Run::default();
        }
        self.seek(cell);
        Run {
            level: self.level,
            length: self.end - cell,
        }
    }
}
