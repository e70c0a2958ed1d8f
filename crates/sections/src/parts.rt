//! Parts of octets.
ghost use Rattle.std.specs.Prelude.{◌≡◌, ◌^◌, ◌*◌, ◌≤◌, drop};
ghost use Rattle.format.specs.Numbers.{field, signed};
ghost use Rattle.sections.specs.Sections.{content};

use format::numbers::{field, signed};

/// The octets from a place on.
pub fn from_place(octets: &[u8], place: usize) -> &[u8]
    ensures { result.now ≡ drop place octets.now }
{
    let first = place.min(octets.len());
    &octets[first..]
}

/// What stands after a section's length and number.
pub fn content(section: &[u8]) -> &[u8]
    ensures { result.now ≡ content section.now }
{
    from_place(section, 5)
}

/// The signed number in so many octets, at most four, from `octet` on, which is counted from 1; `top` is what the top
/// bit of so many octets is worth alone, or more.
pub(crate) fn signed_field<const WIDTH: usize>(octets: &[u8], octet: usize, top: u32) -> i32
    requires width { WIDTH ≤ 4 }
    requires most { top ≤ 2147483648 }
    requires least { 256 ^ WIDTH ≤ 2 * top }
    ensures { result ≡ signed top (field octets.now octet WIDTH) }
{
    signed(field(octets, octet, WIDTH) as u32, top) as i32
}
