//! The sections that have rules of their own.
ghost use Rattle.std.specs.Prelude.{◌≡◌};
ghost use Rattle.format.specs.Sections.{number_of, Names};

/// A section other than section 0; each variant has the number of its section.
#[derive(Clone, Copy, PartialEq, Eq, Debug)]
pub enum Section {
    Identification = 1,
    Frame = 3,
    Product = 4,
    Packing = 5,
    Bitmap = 6,
    Data = 7,
}

/// A number that no section has.
#[derive(Clone, Copy, PartialEq, Eq, Debug)]
pub struct NoSection(pub u8);

impl From<Section> for u8 {
    ghost from_gives = { λ s n. n ≡ number_of s };

    fn from(value: Section) -> u8 {
        value as u8
    }
}

impl TryFrom<u8> for Section {
    type Error = NoSection;

    ghost try_from_gives = { Names };

    fn try_from(value: u8) -> Result<Section, NoSection> {
        match value {
            1 => Ok(Section::Identification),
            3 => Ok(Section::Frame),
            4 => Ok(Section::Product),
            5 => Ok(Section::Packing),
            6 => Ok(Section::Bitmap),
            7 => Ok(Section::Data),
            _ => Err(NoSection(value)),
        }
    }
}
