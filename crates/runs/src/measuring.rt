//! What the canonical string of a string's cells would take.
ghost use Rattle.std.specs.Prelude.{◌≡◌, ℕ, ◌<◌, ◌≤◌, length, replicate, MatchOption, OnSome};
ghost use Rattle.runs.specs.Runs.{highest};
ghost use Rattle.runs.specs.Handed.{cells_in};
ghost use Rattle.runs.specs.Canonical.{longest_runs, runs_octets, canonical, Storable, StringOf};
ghost use Rattle.runs.specs.Theorems.{CanonicalLaws};

use crate::reading::RunString;
use format::limits::MOST_CELLS;

/// The highest level that stored cells may have: a digit has three values then.
const HIGHEST: u8 = 252;

impl RunString<'_> {
    /// The highest level of the cells that the string gives, and 0 if it gives none.
    pub fn highest_level(&self) -> u8
        ensures { result ≡ highest (cells_in self.now) }
    {
        // a digit counts as 0, and is not left out: so the walk has no branch
        self.octets
            .iter()
            .map(|octet| if *octet <= self.v { *octet } else { 0 })
            .max()
            .unwrap_or(0)
    }

    /// How many octets the canonical string of the cells has that the string gives; none if there are more than
    /// 33,554,432 cells or a level above 252 among them.
    pub fn canonical_length(&self) -> Option<usize>
        ensures length { MatchOption result (Storable (cells_in self.now) → ⊥) (λ n. Storable (cells_in self.now) × (n ≡ length (canonical (cells_in self.now)))) }
        ensures string { OnSome result (0 < length (cells_in self.now) → StringOf (cells_in self.now) (canonical (cells_in self.now))) }
        ensures laws { CanonicalLaws }
    {
        let highest = self.highest_level();
        if highest > HIGHEST {
            return None;
        }
        let mut done = 0;
        let mut octets = 0;
        let mut level = 0;
        let mut alike = 0;
        for run in self.runs() {
            if run.cells > MOST_CELLS as usize - done {
                return None;
            }
            done += run.cells;
            // a name for the test, so that no proof goes by its text
            let apart = run.level != level;
            if apart {
                octets += run_octets(highest, alike);
                level = run.level;
                alike = 0;
            }
            alike += run.cells;
        }
        Some(octets + run_octets(highest, alike))
    }
}

/// How many octets a run of that many cells takes, at any level, where digits are those of `v`; a run of no cells
/// takes none.
fn run_octets(v: u8, cells: usize) -> usize
    requires { v ≤ 252 }
    ensures octets { (level : ℕ) → result ≡ length (runs_octets v (longest_runs (replicate cells level))) }
    ensures few { result ≤ cells }
{
    if cells == 0 {
        return 0;
    }
    let values = 255 - usize::from(v);
    let digits = (cells - 1)
        .checked_ilog(values)
        .map_or(0, |power| power as usize + 1);
    1 + digits
}
