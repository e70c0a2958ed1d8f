//! The figures of a field.
ghost use Rattle.std.specs.Prelude.{◌≡◌, Some};
ghost use Rattle.messages.specs.Lawful.{LawfulField};
ghost use Rattle.messages.specs.Order.{held_field};
ghost use Rattle.listing.specs.Lines.{figures_of, figures_lines};

use messages::field::Field;
use std::fmt;
use std::fmt::Display;

/// A field's number, its width and height, the highest level of its cells, and the octets of its string and of the
/// canonical string of its cells.
#[derive(Clone, Copy)]
pub struct Figures {
    pub number: usize,
    pub width: u32,
    pub height: u32,
    pub highest: u8,
    pub string: usize,
    pub shortest: usize,
}

impl Figures {
    /// The figures of field `number`.
    pub(crate) fn of_field(number: usize, field: &Field<&[u8]>) -> Figures
        requires { LawfulField (held_field field.now) }
        ensures { result ≡ figures_of number (held_field field.now) }
    {
        let string = field.run_string();
        Figures {
            number,
            width: field.frame.ni,
            height: field.frame.nj,
            highest: string.highest_level(),
            string: string.octets.len(),
            // a field that loads has such a length
            shortest: string.canonical_length().unwrap_or(0),
        }
    }
}

impl Display for Figures {
    ghost output = { λ x. Some (figures_lines x) };

    fn fmt<W: fmt::Write>(&self, f: &mut fmt::Formatter<W>) -> fmt::Result {
        let number = self.number;
        let width = self.width;
        let height = self.height;
        let highest = self.highest;
        let string = self.string;
        let shortest = self.shortest;
        write!(
            f,
            "field={number}\nwidth={width}\nheight={height}\nhighest={highest}\nstring={string}\nshortest={shortest}\n"
        )
    }
}
