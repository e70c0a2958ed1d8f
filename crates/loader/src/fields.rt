//! The fields of a loaded message that are still to come: from field to field, with nothing checked again.
ghost use Rattle.std.specs.Prelude.{◌≡◌, ◌<◌, ◌≤◌, ◌∷◌, [], length, take, drop};
ghost use Rattle.sections.specs.Sections.{held_packing};
ghost use Rattle.messages.specs.Order.{held_field};
ghost use Rattle.messages.specs.Messages.{stated};
ghost use Rattle.messages.specs.Meaning.{coming};
ghost use Rattle.messages.specs.declared.order.Last.TheVariants as last;

use format::numbers::field;
use messages::field::{Field, Grid, grid_of};
use sections::packing::{Packing, packing_of};
use sections::parts::content;

/// The latest frame, the octets from the next field on, and how many fields come: it goes through them in order, by
/// the lengths of their sections alone.
#[derive(Clone, Copy)]
pub struct Fields<'a> {
    pub(crate) grid: Grid,
    pub(crate) rest: &'a [u8],
    // how many fields, and not how many octets: told without a walk
    pub(crate) left: usize,
    ghost known: { left ≡ length (coming (last.Data grid) rest.now) },
}

impl<'a> Fields<'a> {
    ghost use Rattle.loader.specs.Held.{ahead};

    /// No fields at all.
    pub(crate) fn none() -> Fields<'a>
        ensures { ahead result ≡ [] }
    {
        let rest: &[u8] = &[];
        Fields {
            grid: grid_of(rest),
            rest,
            left: 0,
        }
    }
}

/// A section by its stated length, and the octets after it.
fn hop(rest: &[u8]) -> (&[u8], &[u8])
    requires { stated rest.now ≤ length rest.now }
    ensures section { result.0.now ≡ take (stated rest.now) rest.now }
    ensures after { result.1.now ≡ drop (stated rest.now) rest.now }
{
    rest.split_at(field(rest, 1, 4) as usize)
}

// four steps that ask for a field to come, each from another section on: one fact would have to name all four
/// The grid of the next field, and the octets from its section 4 on.
fn to_product<'a>(grid: Grid, rest: &'a [u8]) -> (Grid, &'a [u8])
    requires { 0 < length (coming (last.Data grid) rest.now) }
    ensures { coming (last.Data grid) rest.now ≡ coming (last.Frame result.0) result.1.now }
{
    if rest[4] != 3 {
        return (grid, rest);
    }
    let (section, after) = hop(rest);
    (grid_of(section), after)
}

/// The product of the next field, and the octets from its section 5 on.
fn to_packing<'a>(grid: Grid, rest: &'a [u8]) -> (&'a [u8], &'a [u8])
    requires { 0 < length (coming (last.Frame grid) rest.now) }
    ensures { coming (last.Frame grid) rest.now ≡ coming (last.Product grid result.0.now) result.1.now }
{
    let (section, after) = hop(rest);
    (content(section), after)
}

/// The packing of the next field, and the octets from its section 7 on.
fn to_data<'a>(grid: Grid, product: &'a [u8], rest: &'a [u8]) -> (Packing<&'a [u8]>, &'a [u8])
    requires { 0 < length (coming (last.Product grid product.now) rest.now) }
    ensures { coming (last.Product grid product.now) rest.now ≡ coming (last.Bitmap grid product.now (held_packing result.0)) result.1.now }
{
    let (section, bitmap) = hop(rest);
    let (_, after) = hop(bitmap);
    (packing_of(section), after)
}

/// The next field, whose string is still to be read, and the octets after it.
fn past_data<'a>(
    grid: Grid,
    product: &'a [u8],
    packing: Packing<&'a [u8]>,
    rest: &'a [u8],
) -> (Field<&'a [u8]>, &'a [u8])
    requires { 0 < length (coming (last.Bitmap grid product.now (held_packing packing)) rest.now) }
    ensures { coming (last.Bitmap grid product.now (held_packing packing.entry)) rest.now ≡ held_field result.0 ∷ coming (last.Data grid) result.1.now }
{
    let (section, after) = hop(rest);
    let frame = grid.frame;
    (
        Field {
            frame,
            product,
            packing,
            string: content(section),
        },
        after,
    )
}

impl<'a> Iterator for Fields<'a> {
    ghost use Rattle.std.specs.Iterator.{YieldsFirstBy, item_count};
    ghost use Rattle.messages.specs.Order.{held_field};
    ghost use Rattle.loader.specs.Held.{ahead};

    type Item = Field<&'a [u8]>;

    ghost next_gives = { YieldsFirstBy held_field ahead };

    ghost remaining = { item_count ahead };

    fn next(&mut self) -> Option<Field<&'a [u8]>> {
        if self.left == 0 {
            return None;
        }
        let (grid, rest) = to_product(self.grid, self.rest);
        let (product, rest) = to_packing(grid, rest);
        let (packing, rest) = to_data(grid, product, rest);
        let (field, rest) = past_data(grid, product, packing, rest);
        *self = Fields {
            grid,
            rest,
            left: self.left - 1,
        };
        Some(field)
    }
}
