//! Section 5: how the levels are packed, and which values they stand for.
ghost use Rattle.std.specs.Prelude.{◌≡◌, length};
ghost use Rattle.sections.specs.Sections.{packing_of, held_packing};
ghost use Rattle.sections.specs.Values.{values, value_of};

use crate::parts::{from_place, signed_field};
use format::numbers::{TOP_OF_TWO, field};

/// What section 5 says; `P` holds a part of the octets.
#[derive(Clone, Copy)]
pub struct Packing<P> {
    /// V, the highest level that the string provides for; told as 255 if it is above that.
    pub v: u8,
    /// E, the decimal scale of the values.
    pub scale: u8,
    /// The values of the levels from 1 on, in two octets each.
    pub table: P,
}

// no `From<&[u8]>`: that would say it of any octets, and this names the section
/// What section 5 says.
pub fn packing_of(section: &[u8]) -> Packing<&[u8]>
    ensures { held_packing result ≡ packing_of section.now }
{
    Packing {
        // 255 for any V above: the string layer takes an octet and asks nothing of it
        v: field(section, 13, 2).min(255) as u8,
        scale: field(section, 17, 1) as u8,
        table: from_place(section, 17),
    }
}

/// The value that a level stands for: `number` divided by ten as often as `scale` says.
#[derive(Clone, Copy, PartialEq, Eq, Debug)]
pub struct Value {
    pub number: i32,
    pub scale: u8,
}

impl Packing<&[u8]> {
    /// M, the highest level that has a value.
    pub fn most(&self) -> usize
        ensures { result ≡ length (values (held_packing self.now).table) }
    {
        self.table.len() / 2
    }

    /// The value of a level, if it has one.
    pub fn value(&self, level: u8) -> Option<Value>
        ensures { result ≡ value_of (held_packing self.now) level }
    {
        let last = 2 * usize::from(level);
        if level == 0 || last > self.table.len() {
            return None;
        }
        Some(Value {
            number: signed_field::<2>(self.table, last - 1, TOP_OF_TWO),
            scale: self.scale,
        })
    }
}
