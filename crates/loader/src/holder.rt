//! What a loader holds and answers.
ghost use Rattle.std.specs.Prelude.{◌≡◌, length, None, Some};
ghost use Rattle.std.specs.Option.{option_map};
ghost use Rattle.messages.specs.Meaning.{loaded_as};

use crate::fields::Fields;
use crate::lamps::{LAMP_BOUNDS, lamps_of};
use charts::level_map::LevelMap;
use format::fault::{ChartFault, Fault};
use messages::field::{Field, grid_of};
use messages::reading::check_message;
use sections::frame::Position;
use sections::identification::{Identification, identification_of};
use sections::packing::Value;
use sections::parts::from_place;

/// The octets of a message that loads, and the number of its fields.
#[derive(Clone, Copy)]
pub(crate) struct Held<'a> {
    pub octets: &'a [u8],
    // how many fields, and not how many octets: told without a walk
    pub count: usize,
    ghost known: { option_map (λ m. length m.fields) (loaded_as octets.now) ≡ Some count },
}

impl<'a> Held<'a> {
    ghost use Rattle.messages.specs.Meaning.{fields_in};
    ghost use Rattle.loader.specs.Held.{ahead};

    /// The identification of the message.
    fn identification(&self) -> Identification
        ensures { Some result ≡ option_map (λ m. m.identification) (loaded_as self.now.octets.now) }
    {
        identification_of(&self.octets[16..37])
    }

    /// All fields, in order.
    fn fields(&self) -> Fields<'a>
        ensures { ahead result ≡ fields_in (loaded_as self.now.octets.now) }
    {
        let rest = from_place(self.octets, 37);
        Fields {
            grid: grid_of(rest),
            rest,
            left: self.count,
        }
    }
}

// no `Model`, nor of `Fields` and `Packed`: a copied type with one needs a way back from what is seen to its parts
/// The message that was loaded last; a new loader holds none.
#[derive(Clone, Copy)]
pub struct Loader<'a> {
    pub(crate) message: Option<Held<'a>>,
}

impl<'a> Loader<'a> {
    ghost use Rattle.format.specs.Refusals.{refused};
    ghost use Rattle.sections.specs.Positions.{position_of};
    ghost use Rattle.sections.specs.Values.{value_of};
    ghost use Rattle.messages.specs.Laws.{MessageLaws};
    ghost use Rattle.loader.specs.Held.{held, held_fields, ahead, Loaded, asked, itself, held_answer};
    ghost use Rattle.loader.specs.Lamps.{lamp_table, map_answer};

    /// A loader that holds no message.
    pub fn new() -> Loader<'a>
        ensures { held result ≡ None }
    {
        Loader { message: None }
    }

    /// Loads a message in place of what was held; a refused one leaves that as it was.
    pub fn load(&mut self, octets: &'a [u8]) -> Result<(), Fault>
        ensures loads { Loaded octets.now self.old self.new result }
        ensures laws { MessageLaws }
    {
        let count = check_message(octets)?;
        self.message = Some(Held { octets, count });
        Ok(())
    }

    /// How many fields there are.
    pub fn count(&self) -> usize
        ensures { result ≡ length (held_fields self.now) }
    {
        self.message.map_or(0, |message| message.count)
    }

    /// The identification of the message that is held, if one is.
    pub fn identification(&self) -> Option<Identification>
        ensures { result ≡ option_map (λ m. m.identification) (held self.now) }
    {
        self.message.map(|message| message.identification())
    }

    /// All fields, in order.
    pub fn fields(&self) -> Fields<'a>
        ensures { ahead result ≡ held_fields self.now }
    {
        match self.message {
            Some(message) => message.fields(),
            None => Fields::none(),
        }
    }

    /// Field `k`, whose parts last as long as the message, whatever is loaded later.
    pub fn field(&self, k: usize) -> Result<Field<&'a [u8]>, Fault>
        ensures { held_answer result ≡ asked itself (held_fields self.now) k }
    {
        if k >= self.count() {
            return Err(ChartFault::NoField.into());
        }
        self.fields().nth(k).ok_or(ChartFault::NoField.into())
    }

    /// The value of a level of field `k`, if it has one.
    pub fn value(&self, k: usize, level: u8) -> Result<Option<Value>, Fault>
        ensures { refused result ≡ asked (λ f. value_of f.packing level) (held_fields self.now) k }
    {
        let field = self.field(k)?;
        Ok(field.packing.value(level))
    }

    /// Where the cell of a column and a row of field `k` lies, if there is one.
    pub fn position(&self, k: usize, column: u32, row: u32) -> Result<Option<Position>, Fault>
        ensures { refused result ≡ asked (λ f. position_of f.frame column row) (held_fields self.now) k }
    {
        Ok(self.field(k)?.frame.position(column, row))
    }

    /// The lamps of the levels of field `k`; refused with 13 if there is no such field.
    pub fn lamp_map(&self, k: usize) -> Result<LevelMap, Fault>
        ensures { map_answer result ≡ asked lamp_table (held_fields self.now) k }
    {
        let packing = self.field(k)?.packing;
        Ok(lamps_of(&LAMP_BOUNDS, packing))
    }
}
