//! What a message is read into.
ghost use Rattle.std.specs.Prelude.{◌≡◌};
ghost use Rattle.messages.specs.Messages.{grid_of};

use format::numbers::field;
use runs::reading::RunString;
use sections::frame::{Frame, frame_of};
use sections::packing::Packing;

/// A field of a message; `P` holds a part of the octets.
#[derive(Clone, Copy)]
pub struct Field<P> {
    /// Where its cells lie.
    pub frame: Frame,
    /// Section 4 from octet 6 on.
    pub product: P,
    /// How its levels are packed, and which values they stand for.
    pub packing: Packing<P>,
    /// Section 7 from octet 6 on: the run string of its levels.
    pub string: P,
}

impl<'a> Field<&'a [u8]> {
    /// The run string of its levels, with V.
    pub fn run_string(&self) -> RunString<'a>
        ensures octets { result.octets.now ≡ self.now.string.now }
        ensures v { result.v ≡ self.now.packing.v }
    {
        RunString {
            octets: self.string,
            v: self.packing.v,
        }
    }
}

/// The latest frame, and the points that section 3 states for it.
#[derive(Clone, Copy, PartialEq, Eq, Debug)]
pub struct Grid {
    pub frame: Frame,
    pub points: u32,
}

// no `From<&[u8]>`: that would say it of any octets, and this names the section
/// The frame that section 3 says, and the points that it states.
pub fn grid_of(section: &[u8]) -> Grid
    ensures { result ≡ grid_of section.now }
{
    Grid {
        frame: frame_of(section),
        points: field(section, 7, 4) as u32,
    }
}
