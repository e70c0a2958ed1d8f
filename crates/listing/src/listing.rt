//! The listing of a message.
ghost use Rattle.std.specs.Prelude.{◌≡◌, Some};
ghost use Rattle.std.specs.Fmt.{WritesOnOk};
ghost use Rattle.std.specs.List.{AllByRecursion};
ghost use Rattle.messages.specs.Lawful.{LawfulField};
ghost use Rattle.loader.specs.Held.{ahead};
ghost use Rattle.listing.specs.Lines.{fields_lines, Lists};
ghost use Rattle.listing.specs.Listings.{text_of};

use crate::figures::Figures;
use format::fault::Fault;
use loader::fields::Fields;
use loader::holder::Loader;
use std::fmt;
use std::fmt::Display;

/// A message: how many octets it has, and the loader that holds it, or the fault that it was refused for.
#[derive(Clone, Copy)]
pub struct Listing<'a> {
    pub(crate) octets: usize,
    pub(crate) loaded: Result<Loader<'a>, Fault>,
}

/// Writes the lines of each field that is still to come.
fn write_fields<W: fmt::Write>(f: &mut fmt::Formatter<W>, fields: Fields) -> fmt::Result
    requires { AllByRecursion LawfulField (ahead fields) }
    ensures { WritesOnOk W.write_str_gives f.old result (fields_lines 0 (ahead fields.entry)) f.new }
{
    for (number, field) in fields.enumerate() {
        let figures = Figures::of_field(number, &field);
        write!(f, "{figures}")?;
    }
    Ok(())
}

impl Display for Listing<'_> {
    ghost output = { λ x. Some (text_of x) };

    fn fmt<W: fmt::Write>(&self, f: &mut fmt::Formatter<W>) -> fmt::Result {
        match self.loaded {
            Ok(loader) => {
                let octets = self.octets;
                let fields = loader.count();
                write!(f, "octets={octets}\nfields={fields}\n")?;
                write_fields(f, loader.fields())
            }
            Err(fault) => {
                let refusal = fault.refusal();
                write!(f, "{refusal}")
            }
        }
    }
}

/// The listing of octets.
pub fn listing_of<'a>(octets: &'a [u8]) -> Listing<'a>
    ensures { Lists octets.now (text_of result) }
{
    let mut loader = Loader::new();
    let loaded = loader.load(octets).and(Ok(loader));
    Listing {
        octets: octets.len(),
        loaded,
    }
}
