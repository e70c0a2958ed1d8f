//! Reading runs.
ghost use Rattle.std.specs.Prelude.{◌≡◌, suc, ◌+◌, ◌≤◌, min, length, drop, []};
ghost use Rattle.runs.specs.Runs.{base, leading_digits, digits_value};

// told for any number of cells above it: a number of 64 bits can be too small for the digits of a run
/// One more than the most cells that a string is checked for.
const TOO_MANY: usize = 4_294_967_296;

/// A run string: its octets, and V, the highest level that its packing provides for.
#[derive(Clone, Copy)]
pub struct RunString<'a> {
    pub octets: &'a [u8],
    pub v: u8,
}

/// A run as it is handed out: its level, its cells, told as 4,294,967,296 if there are more, and its octets.
#[derive(Clone, Copy, PartialEq, Eq, Debug)]
pub struct Run {
    pub level: u8,
    pub cells: usize,
    pub octets: usize,
}

/// The runs of a string that are still to come: those from a place on.
#[derive(Clone, Copy)]
pub struct Runs<'a> {
    octets: &'a [u8],
    place: usize,
    v: u8,
    ghost begins: { leading_digits v (drop place octets.now) ≡ [] },
}

/// How many cells a run has, and the place after its last digit.
#[derive(Clone, Copy, PartialEq, Eq, Debug)]
pub struct RunEnd {
    pub cells: usize,
    pub next: usize,
}

impl<'a> RunString<'a> {
    ghost use Rattle.std.specs.Prelude.{map};
    ghost use Rattle.runs.specs.Runs.{runs};
    ghost use Rattle.runs.specs.Handed.{handed, rest_of, coming, cells_ahead, cells_in};

    /// The runs, in order; digits before the first level are passed over.
    pub fn runs(&self) -> Runs<'a>
        ensures v { result.v ≡ self.now.v }
        ensures rest { rest_of result ≡ drop (length (leading_digits self.now.v self.now.octets.now)) self.now.octets.now }
        ensures coming { coming result ≡ map (handed self.now.v) (runs self.now.v self.now.octets.now) }
        ensures cells { cells_ahead result ≡ cells_in self.now }
    {
        Runs {
            octets: self.octets,
            place: read_run(self.octets, 0, self.v).next,
            v: self.v,
        }
    }
}

impl<'a> Iterator for Runs<'a> {
    ghost use Rattle.std.specs.Iterator.{item_count};
    ghost use Rattle.runs.specs.Handed.{coming, GivesRun};

    type Item = Run;

    ghost next_gives = { GivesRun };

    ghost remaining = { item_count coming };

    fn next(&mut self) -> Option<Run> {
        let first = self.place;
        if first >= self.octets.len() {
            return None;
        }
        let end = read_run(self.octets, first + 1, self.v);
        self.place = end.next;
        Some(Run {
            level: self.octets[first],
            cells: end.cells,
            octets: end.next - first,
        })
    }
}

/// The cells of the run whose digits begin at the place `at`, told as 4,294,967,296 if there are more, and the place
/// after its last digit.
pub fn read_run(string: &[u8], at: usize, v: u8) -> RunEnd
    ensures cells { result.cells ≡ min (suc (digits_value (base v) (leading_digits v (drop at string.now)))) 4_294_967_296 }
    ensures next { result.next ≡ at + length (leading_digits v (drop at string.now)) }
    ensures within { at ≤ length string.now → result.next ≤ length string.now }
{
    let values = 255 - usize::from(v);
    let mut cells = 1;
    let mut weight = 1;
    let mut place = at;
    // a loop that yields both by break, which is a rule of this project
    let (cells, next) = loop {
        if place >= string.len() || string[place] <= v {
            break (cells, place);
        }
        let digit = usize::from(string[place] - v - 1);
        cells = (cells + digit * weight).min(TOO_MANY);
        weight = (weight * values).min(TOO_MANY);
        place += 1;
    };
    RunEnd { cells, next }
}
