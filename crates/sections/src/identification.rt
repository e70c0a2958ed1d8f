//! Section 1: who made the message, and for which time.
ghost use Rattle.std.specs.Prelude.{◌≡◌};
ghost use Rattle.sections.specs.Sections.{identification_of};

use format::numbers::field;

/// What section 1 says, from its octet 6 on.
#[derive(Clone, Copy, PartialEq, Eq, Debug)]
pub struct Identification {
    /// The originating centre.
    pub centre: u16,
    /// Its subcentre.
    pub subcentre: u16,
    /// The version of the master tables.
    pub tables: u8,
    /// The version of the local tables.
    pub local: u8,
    /// What the reference time means.
    pub meaning: u8,
    /// The reference time.
    pub year: u16,
    pub month: u8,
    pub day: u8,
    pub hour: u8,
    pub minute: u8,
    pub second: u8,
    /// Whether the data are operational or a trial.
    pub status: u8,
    /// The kind of data.
    pub kind: u8,
}

// no `From<&[u8]>`: that would say it of any octets, and this names the section
/// What section 1 says.
pub fn identification_of(section: &[u8]) -> Identification
    ensures { result ≡ identification_of section.now }
{
    Identification {
        centre: field(section, 6, 2) as u16,
        subcentre: field(section, 8, 2) as u16,
        tables: field(section, 10, 1) as u8,
        local: field(section, 11, 1) as u8,
        meaning: field(section, 12, 1) as u8,
        year: field(section, 13, 2) as u16,
        month: field(section, 15, 1) as u8,
        day: field(section, 16, 1) as u8,
        hour: field(section, 17, 1) as u8,
        minute: field(section, 18, 1) as u8,
        second: field(section, 19, 1) as u8,
        status: field(section, 20, 1) as u8,
        kind: field(section, 21, 1) as u8,
    }
}
