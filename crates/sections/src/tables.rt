//! What each section is checked for, as a list of rules in octet order.
ghost use Rattle.std.specs.Prelude.{◌≡◌};
ghost use Rattle.format.specs.Refusals.{refused_in_section};
ghost use Rattle.format.specs.Sections.{number_of};
ghost use Rattle.format.specs.declared.fault.Layer.TheVariants as layer;
ghost use Rattle.sections.specs.Rules.{judge, judged, checks_for};
ghost use Rattle.sections.specs.Sections.{packing_rules};
ghost use Rattle.sections.specs.SectionRules.{rules_of};

use crate::rules::{Row, Rule, check_rules};
use format::fault::{InSection, Start};
use format::limits::{MOST_CELLS, MOST_SIDE};
use format::section::Section;

/// A rule of that kind over a field of one value: its first octet, its width, and the value.
macro_rules! row {
    ($kind:ident, $octet:literal, $width:literal, $value:expr) => {
        Rule::$kind(Row {
            octet: $octet,
            width: $width,
            value: $value,
        })
    };
}

/// A field's first octet, its width, and its least and its greatest value.
macro_rules! within {
    ($octet:literal, $width:literal, $low:expr, $high:expr) => {
        Rule::Within {
            octet: $octet,
            width: $width,
            low: $low,
            high: $high,
        }
    };
}

/// What section 1 is checked for, in octet order.
pub const IDENTIFICATION_RULES: [Rule; 8] = [
    Rule::Length(21),
    row!(Fixed, 6, 2, 34),
    within!(13, 2, 1, 9999),
    within!(15, 1, 1, 12),
    Rule::Day {
        octet: 16,
        year: 13,
        month: 15,
    },
    within!(17, 1, 0, 23),
    within!(18, 1, 0, 59),
    within!(19, 1, 0, 59),
];

/// What section 3 is checked for, in octet order; a packer writes the fields of one value from here too.
pub const FRAME_RULES: [Rule; 26] = [
    Rule::Length(72),
    row!(Fixed, 6, 1, 0),
    within!(7, 4, 1, MOST_CELLS),
    row!(Fixed, 11, 1, 0),
    row!(Fixed, 12, 1, 0),
    row!(Template, 13, 2, 0),
    row!(Fixed, 15, 1, 4),
    row!(Fixed, 16, 1, 255),
    row!(Fixed, 17, 4, 0xFFFF_FFFF),
    row!(Fixed, 21, 1, 1),
    row!(Fixed, 22, 4, 63_781_370),
    row!(Fixed, 26, 1, 1),
    row!(Fixed, 27, 4, 63_567_523),
    within!(31, 4, 1, MOST_SIDE),
    within!(35, 4, 1, MOST_SIDE),
    Rule::Cells {
        octet: 35,
        columns: 31,
        points: 7,
    },
    row!(Fixed, 39, 4, 0),
    row!(Fixed, 43, 4, 0xFFFF_FFFF),
    Rule::Latitude { octet: 47 },
    within!(51, 4, 0, 360_000_000),
    row!(Fixed, 55, 1, 0x30),
    Rule::Latitude { octet: 56 },
    Rule::South {
        octet: 56,
        first: 47,
        count: 35,
    },
    within!(60, 4, 0, 360_000_000),
    Rule::East {
        octet: 60,
        first: 51,
        count: 31,
    },
    row!(Fixed, 72, 1, 0),
];

/// What section 4 is checked for, in octet order.
pub const PRODUCT_RULES: [Rule; 4] = [
    Rule::LengthFrom(9),
    row!(Fixed, 6, 2, 0),
    Rule::ProductTemplate { octet: 8 },
    Rule::ProductLength,
];

/// What section 6 is checked for.
pub const BITMAP_RULES: [Rule; 2] = [Rule::Length(6), row!(Fixed, 6, 1, 255)];

/// What section 7 is checked for, its string apart.
pub const DATA_RULES: [Rule; 1] = [Rule::LengthFrom(5)];

/// What section 5 is checked for under a frame of so many points, in octet order.
fn packing_rules(points: u32) -> [Rule; 8]
    ensures { result ≡ packing_rules points }
{
    [
        Rule::LengthFrom(17),
        row!(Equals, 6, 4, points),
        row!(Template, 10, 2, 200),
        row!(Fixed, 12, 1, 8),
        Rule::AtMost {
            octet: 13,
            most: 15,
        },
        within!(15, 2, 1, 252),
        within!(17, 1, 0, 6),
        Rule::TableLength,
    ]
}

/// Checks a section, of section 7 not its string; section 5 is checked under a frame of so many points.
#[tactic(auto, unfolding(crate::specs::Sections::identification_rules, crate::specs::Sections::frame_rules, crate::specs::Sections::product_rules, crate::specs::Sections::bitmap_rules, crate::specs::Sections::data_rules))]
pub fn check_section(
    section: Section,
    octets: &[u8],
    points: u32,
    start: Start,
) -> Result<(), InSection>
    ensures { refused_in_section result ≡ judged (layer.Section (number_of section)) start.place start.fields (judge (checks_for (rules_of section points)) octets.now) tt }
{
    let check = |rules: &[Rule]| check_rules(octets, section.into(), start, rules);
    // a match: each section has its table, and that of section 5 is made of the points
    match section {
        Section::Identification => check(&IDENTIFICATION_RULES),
        Section::Frame => check(&FRAME_RULES),
        Section::Product => check(&PRODUCT_RULES),
        Section::Packing => check(&packing_rules(points)),
        Section::Bitmap => check(&BITMAP_RULES),
        Section::Data => check(&DATA_RULES),
    }
}
