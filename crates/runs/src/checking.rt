//! Whether a string can be loaded.
ghost use Rattle.std.specs.Prelude.{◌≡◌, ◌+◌, ◌^◌, ◌<◌, MatchResult};
ghost use Rattle.std.specs.List.{AllByRecursion};
ghost use Rattle.format.specs.Refusals.{told, string_number, string_refusal, refused_in_string};
ghost use Rattle.format.specs.declared.fault.Layer.TheVariants as layer;
ghost use Rattle.runs.specs.StringFaults.{digit_first, fault, judged, Loads};
ghost use Rattle.runs.specs.Theorems.{FaultlessLoads};

use crate::reading::RunString;
use format::fault::{InString, Spot, Start, StringFault};

impl RunString<'_> {
    /// Checks that the string, which begins at `start`, is loadable as that many cells, and tells its first fault if it
    /// is not.
    pub fn check(&self, cells: u32, start: Start) -> Result<(), InString>
        ensures tells { refused_in_string result ≡ judged start.place start.fields (fault self.now.v cells self.now.octets.now) }
        ensures loads { MatchResult result (λ _. (0 < cells → Loads self.now.v cells self.now.octets.now)) (λ _. (Loads self.now.v cells self.now.octets.now → ⊥)) }
        ensures law { FaultlessLoads }
    {
        let all = cells as usize;
        if begins_with_digit(self.octets, self.v) {
            return Err(in_string(StringFault::DigitFirst, start, 0, 0));
        }
        let mut offset = 0;
        let mut done = 0;
        for run in self.runs() {
            if run.cells > all - done {
                return Err(in_string(StringFault::PastLastCell, start, offset, done));
            }
            done += run.cells;
            offset += run.octets;
        }
        if done < all {
            return Err(in_string(StringFault::OverEarly, start, offset, done));
        }
        Ok(())
    }
}

// octets and V, and no method: of a slice that is lent the proof learns that each octet is below 256
/// Whether the octets begin with a digit.
fn begins_with_digit(octets: &[u8], v: u8) -> bool
    ensures digit { result ≡ digit_first v octets.now }
    ensures octets { AllByRecursion (λ o. o < 256) octets.now }
{
    matches!(octets, [first, ..] if *first > v)
}

/// A fault at an offset in a string, with the cells finished before it.
fn in_string(fault: StringFault, start: Start, offset: usize, cells: usize) -> InString
    requires { offset < 2 ^ 63 }
    ensures { string_refusal result ≡ told (string_number fault) layer.String (start.place + offset) start.fields cells }
{
    InString {
        fault,
        at: Spot {
            place: start.place as usize + offset,
            fields: start.fields,
        },
        cells,
    }
}
