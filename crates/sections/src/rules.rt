//! The rules that sections are checked by, each told at its field's first octet.
ghost use Rattle.std.specs.Prelude.{◌≡◌, ℕ, ◌==◌, if◌then◌else◌, int_lt};
ghost use Rattle.std.specs.Ordering.{int_eq};
ghost use Rattle.format.specs.Numbers.{field, signed};
ghost use Rattle.format.specs.Refusals.{refused_in_section, section_number};
ghost use Rattle.format.specs.declared.fault.Layer.TheVariants as layer;
ghost use Rattle.sections.specs.declared.rules.Rule.TheVariants as rule;
ghost use Rattle.sections.specs.Calendar.{days_in};
ghost use Rattle.sections.specs.Rules.{judge, judged, check_of, checks_for, product_length, FirstDecides};

use crate::parts::signed_field;
use format::fault::{InSection, SectionFault, Spot, Start};
use format::numbers::{TOP_OF_FOUR, field};

/// A field of one value: its first octet counted from 1, its width in octets, and the value.
#[derive(Clone, Copy, PartialEq, Eq, Debug)]
pub struct Row {
    pub octet: u16,
    pub width: u8,
    pub value: u32,
}

/// A rule that a section keeps or breaks. Octets are counted from 1.
#[derive(Clone, Copy, PartialEq, Eq, Debug)]
pub enum Rule {
    /// The section has so many octets.
    Length(u32),
    /// It has so many octets or more.
    LengthFrom(u32),
    /// It has as many octets as its product template sets.
    ProductLength,
    /// It has 17 octets and two for each of the values that octets 15 and 16 count.
    TableLength,
    /// A field of one value.
    Fixed(Row),
    /// A template number of one value.
    Template(Row),
    /// A product template that is known.
    ProductTemplate {
        octet: u16,
    },
    /// A field that another section sets.
    Equals(Row),
    /// A field from `low` to `high`.
    Within {
        octet: u16,
        width: u8,
        low: u32,
        high: u32,
    },
    /// A field of two octets that is at most the one at `most`.
    AtMost {
        octet: u16,
        most: u16,
    },
    /// A day of the month at `month` in the year at `year`.
    Day {
        octet: u16,
        year: u16,
        month: u16,
    },
    /// A latitude from -90,000,000 to 90,000,000.
    Latitude {
        octet: u16,
    },
    /// The counts at `columns` and at `octet` multiply to the points.
    Cells {
        octet: u16,
        columns: u16,
        points: u16,
    },
    /// A latitude that equals the one at `first` if the count at `count` is 1, and is below it otherwise.
    South {
        octet: u16,
        first: u16,
        count: u16,
    },
    /// A longitude that equals the one at `first` if the count at `count` is 1, and is above it otherwise.
    East {
        octet: u16,
        first: u16,
        count: u16,
    },
}

/// The signed number in four octets.
pub(crate) fn latitude(section: &[u8], octet: u16) -> i32
    ensures { result ≡ signed 2147483648 (field section.now octet 4) }
{
    signed_field::<4>(section, octet as usize, TOP_OF_FOUR)
}

/// The days of a month from 1 to 12 in the Gregorian calendar.
fn days_in(year: u64, month: u64) -> u64
    ensures { result ≡ days_in year month }
{
    let leap = year % 4 == 0 && (year % 100 != 0 || year % 400 == 0);
    match month {
        2 if leap => 29,
        2 => 28,
        4 | 6 | 9 | 11 => 30,
        _ => 31,
    }
}

/// The octets that section 4 has by its product template.
fn product_length(section: &[u8]) -> usize
    ensures { result ≡ product_length section.now }
{
    match field(section, 8, 2) {
        0 => 34,
        50009 => 85 + 2 * field(section, 83, 2) as usize,
        _ => 82,
    }
}

impl Rule {
    /// Whether the section keeps the rule.
    fn keeps(self, section: &[u8]) -> bool
        ensures { result ≡ (check_of self).passes section.now }
    {
        // a match and no closures: the rules are constants, which contracts read and a packer writes from
        let at = |octet: u16, width: usize| field(section, usize::from(octet), width);
        match self {
            Rule::Length(octets) => section.len() == octets as usize,
            Rule::LengthFrom(octets) => section.len() >= octets as usize,
            Rule::ProductLength => section.len() == product_length(section),
            Rule::TableLength => section.len() == 17 + 2 * at(15, 2) as usize,
            Rule::Fixed(row) | Rule::Template(row) | Rule::Equals(row) => row.stands(section),
            Rule::ProductTemplate { octet } => matches!(at(octet, 2), 0 | 50008 | 50011 | 50009),
            Rule::Within {
                octet,
                width,
                low,
                high,
            } => within_keeps(section, octet, width, low, high),
            Rule::AtMost { octet, most } => at(octet, 2) <= at(most, 2),
            Rule::Day { octet, year, month } => day_keeps(section, octet, year, month),
            Rule::Latitude { octet } => latitude(section, octet).unsigned_abs() <= 90_000_000,
            Rule::Cells {
                octet,
                columns,
                points,
            } => at(columns, 4) * at(octet, 4) == at(points, 4),
            Rule::South {
                octet,
                first,
                count,
            } => {
                let (here, there) = (latitude(section, octet), latitude(section, first));
                lie_in_order(at(count, 4), here.into(), there.into())
            },
            Rule::East {
                octet,
                first,
                count,
            } => lie_in_order(at(count, 4), at(first, 4) as i64, at(octet, 4) as i64),
        }
    }

    /// The fault of a section that breaks the rule.
    fn fault(self) -> SectionFault
        ensures { section_number result ≡ (check_of self).tells.number }
    {
        match self {
            Rule::Length(_) | Rule::LengthFrom(_) | Rule::ProductLength | Rule::TableLength =>
                SectionFault::Length,
            Rule::Fixed(_) => SectionFault::Fixed,
            Rule::Template(_) | Rule::ProductTemplate { .. } => SectionFault::Template,
            _ => SectionFault::Value,
        }
    }

    /// The octet that it is told at.
    fn octet(self) -> u16
        ensures { result ≡ (check_of self).tells.octet }
    {
        match self {
            Rule::Length(_) | Rule::LengthFrom(_) | Rule::ProductLength | Rule::TableLength => 1,
            Rule::Fixed(row) | Rule::Template(row) | Rule::Equals(row) => row.octet,
            Rule::ProductTemplate { octet }
            | Rule::Within { octet, .. }
            | Rule::AtMost { octet, .. }
            | Rule::Day { octet, .. }
            | Rule::Latitude { octet }
            | Rule::Cells { octet, .. }
            | Rule::South { octet, .. }
            | Rule::East { octet, .. } => octet,
        }
    }
}

impl Row {
    /// Whether the section has the row's value in its field.
    fn stands(self, section: &[u8]) -> bool
        ensures { result ≡ (field section.now self.octet self.width == self.value) }
    {
        field(section, self.octet as usize, self.width as usize) == u64::from(self.value)
    }
}

fn within_keeps(section: &[u8], octet: u16, width: u8, low: u32, high: u32) -> bool
    ensures { result ≡ (check_of (rule.Within octet width low high)).passes section.now }
{
    let n = field(section, octet as usize, width as usize);
    u64::from(low) <= n && n <= u64::from(high)
}

fn day_keeps(section: &[u8], octet: u16, year: u16, month: u16) -> bool
    ensures { result ≡ (check_of (rule.Day octet year month)).passes section.now }
{
    let day = field(section, octet as usize, 1);
    let days = days_in(
        field(section, year as usize, 2),
        field(section, month as usize, 1),
    );
    1 <= day && day <= days
}

/// Whether `low` and `high`, the ends of so many numbers, are equal where there is one number, and else rise.
fn lie_in_order(count: u64, low: i64, high: i64) -> bool
    ensures { result ≡ if count == 1 then int_eq low high else int_lt low high }
{
    if count == 1 { low == high } else { low < high }
}

// octets and start, as in `check_section` and a string's check: a type of both would ask of callers that no place in it wraps
/// The first of the rules that the octets of section `number` break.
pub fn check_rules(octets: &[u8], number: u8, start: Start, rules: &[Rule]) -> Result<(), InSection>
    ensures first { refused_in_section result ≡ judged (layer.Section number) start.place start.fields (judge (checks_for rules.now) octets.now) tt }
    ensures law { FirstDecides }
{
    for rule in rules {
        if !rule.keeps(octets) {
            let place = start.place as usize + (rule.octet() as usize).saturating_sub(1);
            return Err(InSection::Own {
                fault: rule.fault(),
                section: number,
                at: Spot {
                    place,
                    fields: start.fields,
                },
            });
        }
    }
    Ok(())
}
