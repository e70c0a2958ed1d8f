//! The order of sections.
ghost use Rattle.std.specs.Prelude.{◌≡◌};
ghost use Rattle.std.specs.Option.{option_map};
ghost use Rattle.messages.specs.Order.{follows, held_last, held_due};
ghost use Rattle.messages.specs.Messages.{section_of, points_of};

use crate::field::Grid;
use format::section::Section;
use sections::packing::Packing;

/// The section just read, with what later sections need of it; `P` holds a part of the octets.
#[derive(Drop)]
pub enum Last<P> {
    Head,
    Identification,
    Frame(Grid),
    Product(Grid, P),
    Packing(Grid, P, Packing<P>),
    Bitmap(Grid, P, Packing<P>),
    Data(Grid),
}

// beside `Last`, whose name tells what was read: at each step the two hold other parts
/// The section that its number announces, where it may come next.
#[derive(Drop)]
pub enum Due<P> {
    Identification,
    Frame,
    Product(Grid),
    Packing(Grid, P),
    Bitmap(Grid, P, Packing<P>),
    Data(Grid, P, Packing<P>),
}

impl<P> Due<P> {
    /// Which section it is.
    pub(crate) fn section(&self) -> Section
        ensures { result ≡ section_of self.now }
    {
        match self {
            Due::Identification => Section::Identification,
            Due::Frame => Section::Frame,
            Due::Product(_) => Section::Product,
            Due::Packing(..) => Section::Packing,
            Due::Bitmap(..) => Section::Bitmap,
            Due::Data(..) => Section::Data,
        }
    }

    // a `u32` and no `Option`: before the first frame no section is checked against points
    /// The points of the frame that it stands under, and 0 before the first.
    pub(crate) fn points(&self) -> u32
        ensures { result ≡ points_of self.now }
    {
        match self {
            Due::Identification | Due::Frame => 0,
            Due::Product(grid)
            | Due::Packing(grid, _)
            | Due::Bitmap(grid, ..)
            | Due::Data(grid, ..) => grid.points,
        }
    }
}

/// Which section the number announces after the one just read, if it may come there.
pub(crate) fn announced<'a>(last: Last<&'a [u8]>, number: u8) -> Option<Due<&'a [u8]>>
    ensures { option_map held_due result ≡ follows (held_last last.entry) number }
{
    match (last, Section::try_from(number).ok()?) {
        (Last::Head, Section::Identification) => Some(Due::Identification),
        (Last::Identification | Last::Data(_), Section::Frame) => Some(Due::Frame),
        (Last::Frame(grid) | Last::Data(grid), Section::Product) => Some(Due::Product(grid)),
        (Last::Product(grid, product), Section::Packing) => Some(Due::Packing(grid, product)),
        (Last::Packing(grid, product, packing), Section::Bitmap) => Some(Due::Bitmap(
            grid, product, packing,
        )),
        (Last::Bitmap(grid, product, packing), Section::Data) => Some(Due::Data(
            grid, product, packing,
        )),
        _ => None,
    }
}
