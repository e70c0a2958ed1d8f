//! A whole message, section by section.
ghost use Rattle.std.specs.Prelude.{◌≡◌, ◌≤◌, ◌↔◌, IsTrue};
ghost use Rattle.format.specs.Refusals.{refusal, refused, refused_in_section, message_number};
ghost use Rattle.format.specs.declared.fault.Layer.TheVariants as layer;
ghost use Rattle.sections.specs.Rules.{judge, judged};
ghost use Rattle.messages.specs.Order.{held_last, held_due};
ghost use Rattle.messages.specs.Messages.{Ended, head_checks, of_message};
ghost use Rattle.messages.specs.Meaning.{verdict, next_of, taken, advance, meaning, counted};
ghost use Rattle.messages.specs.Steps.{held_step, held_next};
ghost use Rattle.messages.specs.Laws.{MessageLaws};

use crate::field::{Field, grid_of};
use crate::order::{Due, Last, announced};
use format::fault::{Fault, InSection, MessageFault, Spot, Start};
use format::limits::MOST_OCTETS;
use format::numbers::field;
use runs::reading::RunString;
use sections::packing::packing_of;
use sections::parts::content;
use sections::tables::check_section;

/// Octets of a message, in their place.
#[derive(Clone, Copy)]
pub(crate) struct Part<'a> {
    pub octets: &'a [u8],
    pub start: Start,
    ghost within: { start.place ≤ 134217728 },
}

/// What one section leaves: the section just read, the field that it finishes, and the octets after it.
#[derive(Drop)]
pub(crate) struct Step<'a> {
    pub last: Last<&'a [u8]>,
    pub made: Option<Field<&'a [u8]>>,
    pub rest: &'a [u8],
}

/// A fault of section 0.
fn at_head(fault: MessageFault, place: usize) -> Fault
    ensures { refusal result ≡ of_message (message_number fault) place 0 }
{
    Fault::Message(fault, Spot { place, fields: 0 })
}

/// Checks section 0, at the start of the message.
fn check_head(octets: &[u8]) -> Result<(), Fault>
    ensures { refused result ≡ judged layer.Message 0 0 (judge head_checks octets.now) tt }
{
    if octets.len() < 16 {
        return Err(at_head(MessageFault::CutShort, 0));
    }
    if field(octets, 1, 4) != 0x4752_4942 {
        return Err(at_head(MessageFault::Indicator, 0));
    }
    if field(octets, 5, 2) != 0xFFFF {
        return Err(at_head(MessageFault::Indicator, 4));
    }
    if field(octets, 7, 1) != 0 {
        return Err(at_head(MessageFault::Indicator, 6));
    }
    if field(octets, 8, 1) != 2 {
        return Err(at_head(MessageFault::Indicator, 7));
    }
    if field(octets, 9, 8) != octets.len() as u64 || octets.len() > MOST_OCTETS {
        return Err(at_head(MessageFault::TotalLength, 8));
    }
    Ok(())
}

/// Checks a section that may come here, and the string in it.
fn check_due(due: &Due<&[u8]>, section: Part) -> Result<(), InSection>
    ensures { refused_in_section result ≡ verdict (held_due due.now) section.entry.start.place section.entry.start.fields section.entry.octets.now }
{
    let Part { octets, start } = section;
    check_section(due.section(), octets, due.points(), start)?;
    if let Due::Data(_, _, packing) = due {
        let within = Start {
            place: start.place + 5,
            fields: start.fields,
        };
        let string = RunString {
            octets: content(octets),
            v: packing.v,
        };
        string.check(due.points(), within)?;
    }
    Ok(())
}

/// What a section leaves that keeps its rules.
fn step_of<'a>(due: Due<&'a [u8]>, section: &'a [u8], after: &'a [u8]) -> Step<'a>
    ensures { held_step result ≡ next_of (held_due due.entry) section.now after.now }
{
    let mut made = None;
    // a match: each kind of section leaves something else
    let last = match due {
        Due::Identification => Last::Identification,
        Due::Frame => Last::Frame(grid_of(section)),
        Due::Product(grid) => Last::Product(grid, content(section)),
        Due::Packing(grid, product) => Last::Packing(grid, product, packing_of(section)),
        Due::Bitmap(grid, product, packing) => Last::Bitmap(grid, product, packing),
        Due::Data(grid, product, packing) => {
            made = Some(Field {
                frame: grid.frame,
                product,
                packing,
                string: content(section),
            });
            Last::Data(grid)
        }
    };
    Step {
        last,
        made,
        rest: after,
    }
}

/// Reads a section that may come here, with the octets after it.
fn read_section<'a>(
    due: Due<&'a [u8]>,
    section: Part<'a>,
    after: &'a [u8],
) -> Result<Step<'a>, Fault>
    ensures { held_next result ≡ taken (held_due due.entry) section.entry.start.place section.entry.start.fields section.entry.octets.now after.now }
{
    check_due(&due, section)?;
    Ok(step_of(due, section.octets, after))
}

/// Reads the next section, where no end mark stands.
fn next_section<'a>(last: Last<&'a [u8]>, rest: Part<'a>) -> Result<Step<'a>, Fault>
    ensures { held_next result ≡ advance (held_last last.entry) rest.entry.start.place rest.entry.start.fields rest.entry.octets.now }
{
    let Part { octets, start } = rest;
    let place = start.place as usize;
    let fields = start.fields;
    let [a, b, c, d, number, content @ ..] = octets else {
        return Err(Fault::Message(MessageFault::CutShort, Spot { place, fields }));
    };
    let Some(due) = announced(last, *number) else {
        return Err(Fault::Message(
            MessageFault::Order,
            Spot {
                place: place + 4,
                fields,
            },
        ));
    };
    let length = u32::from_be_bytes([*a, *b, *c, *d]) as usize;
    if length > 5 + content.len() {
        return Err(Fault::Message(MessageFault::CutShort, Spot { place, fields }));
    }
    let (section, after) = octets.split_at(length);
    read_section(
        due,
        Part {
            octets: section,
            start,
        },
        after,
    )
}

/// Whether the end mark stands here, which it may only after a section 7.
fn at_end(last: &Last<&[u8]>, rest: &[u8]) -> bool
    ensures { IsTrue result ↔ Ended (held_last last.now) rest.now }
{
    matches!((last, rest), (Last::Data(_), [b'7', b'7', b'7', b'7', ..]))
}

// beside the walk of a loader's fields, which checks nothing again
/// Checks a whole message, and counts its fields.
pub fn check_message(octets: &[u8]) -> Result<usize, Fault>
    ensures counts { refused result ≡ counted (meaning octets.now) }
    ensures laws { MessageLaws }
{
    check_head(octets)?;
    let mut fields = 0;
    let mut last = Last::Head;
    let mut rest = &octets[16..];
    loop {
        let place = octets.len() - rest.len();
        if at_end(&last, rest) {
            if rest.len() > 4 {
                return Err(Fault::Message(
                    MessageFault::AfterEnd,
                    Spot {
                        place: place + 4,
                        fields,
                    },
                ));
            }
            return Ok(fields);
        }
        let start = Start {
            place: place as u32,
            fields,
        };
        let step = next_section(
            last,
            Part {
                octets: rest,
                start,
            },
        )?;
        if step.made.is_some() {
            fields += 1;
        }
        last = step.last;
        rest = step.rest;
    }
}
