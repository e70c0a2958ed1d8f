//! What a refused call tells.
ghost use Rattle.std.specs.Prelude.{◌≡◌};
ghost use Rattle.format.specs.declared.fault.Fault.TheVariants as fault;
ghost use Rattle.format.specs.declared.fault.InSection.TheVariants as section;
ghost use Rattle.format.specs.Refusals.{refusal, section_refusal, told};

/// A fault of a message as a whole.
#[derive(Clone, Copy, PartialEq, Eq, Debug)]
pub enum MessageFault {
    /// There are fewer octets than the message needs or says.
    CutShort = 1,
    /// A fixed field of section 0 has another value.
    Indicator = 2,
    /// The total length is not that of the octets, or is above the limit.
    TotalLength = 3,
    /// A section's number may not come here.
    Order = 4,
    /// Octets stand after the end mark.
    AfterEnd = 5,
}

/// A fault inside one section.
#[derive(Clone, Copy, PartialEq, Eq, Debug)]
pub enum SectionFault {
    /// The section's length.
    Length = 6,
    /// A field that has one value has another.
    Fixed = 7,
    /// A template number.
    Template = 8,
    /// Any other field.
    Value = 9,
}

/// A fault of a run string.
#[derive(Clone, Copy, PartialEq, Eq, Debug)]
pub enum StringFault {
    /// The string begins with a digit.
    DigitFirst = 10,
    /// A run passes the last cell.
    PastLastCell = 11,
    /// The string is over before the last cell.
    OverEarly = 12,
}

/// A fault of the builder of charts.
#[derive(Clone, Copy, PartialEq, Eq, Debug)]
pub enum ChartFault {
    /// There is no field of that number.
    NoField = 13,
    /// A size or start outside its limits, or another number of cells.
    Limits = 14,
}

/// A fault of a put, or of the buffer that it is given.
#[derive(Clone, Copy, PartialEq, Eq, Debug)]
pub enum PackerFault {
    /// The chart's size is not the frame's.
    Size = 15,
    /// A level is above the highest that the table has a value for.
    Level = 16,
    /// The buffer, or the limit of a message, is too small.
    Room = 17,
}

// beside `Spot` for its `u32`: so no sum of it with a slice's length can wrap, and a fault's place is such a sum
/// Where a part of a message begins: its place in octets, counted from 0, and the fields finished before it.
#[derive(Clone, Copy, PartialEq, Eq, Debug)]
pub struct Start {
    pub place: u32,
    pub fields: usize,
}

/// Where a fault was met: the place in octets or cells, counted from 0, and the fields finished or accepted before it.
#[derive(Clone, Copy, PartialEq, Eq, Debug)]
pub struct Spot {
    pub place: usize,
    pub fields: usize,
}

/// A string's fault: where, and how many cells were finished before it.
#[derive(Clone, Copy, PartialEq, Eq, Debug)]
pub struct InString {
    pub fault: StringFault,
    pub at: Spot,
    pub cells: usize,
}

/// A section's own fault, with the section's number, or that of the string in it.
#[derive(Clone, Copy, PartialEq, Eq, Debug)]
pub enum InSection {
    Own {
        fault: SectionFault,
        section: u8,
        at: Spot,
    },
    String(InString),
}

/// Why a call is refused.
#[derive(Clone, Copy, PartialEq, Eq, Debug)]
pub enum Fault {
    Message(MessageFault, Spot),
    Section(InSection),
    Chart(ChartFault),
    Packer(PackerFault, Spot),
}

/// The layer that a fault is one of.
#[derive(Clone, Copy, PartialEq, Eq, Debug)]
pub enum Layer {
    Message,
    Section(u8),
    String,
    Charts,
    Packer,
}

/// What a fault tells: its number, its layer, its place, and the fields and cells finished before it.
#[derive(Clone, Copy, PartialEq, Eq, Debug)]
pub struct Refusal {
    // a number and no enum: it is what a person is told
    pub number: u8,
    pub layer: Layer,
    pub place: usize,
    pub fields: usize,
    pub cells: usize,
}

impl From<InString> for InSection {
    ghost from_gives = { λ e f. f ≡ section.String e };

    fn from(value: InString) -> InSection {
        InSection::String(value)
    }
}

impl From<ChartFault> for Fault {
    ghost from_gives = { λ e f. f ≡ fault.Chart e };

    fn from(value: ChartFault) -> Fault {
        Fault::Chart(value)
    }
}

impl From<InSection> for Fault {
    ghost from_gives = { λ e f. f ≡ fault.Section e };

    fn from(value: InSection) -> Fault {
        Fault::Section(value)
    }
}

impl Fault {
    /// What the fault tells.
    pub fn refusal(&self) -> Refusal
        ensures { result ≡ refusal self.now }
    {
        match *self {
            Fault::Message(fault, at) => refusal_at(fault as u8, Layer::Message, at),
            Fault::Section(inside) => section_refusal(inside),
            Fault::Chart(fault) => Refusal {
                number: fault as u8,
                layer: Layer::Charts,
                place: 0,
                fields: 0,
                cells: 0,
            },
            Fault::Packer(fault, at) => refusal_at(fault as u8, Layer::Packer, at),
        }
    }

    // five that each tell one part: callers ask for one, and `refusal` tells all
    /// Its number, from 1 to 17.
    pub fn number(&self) -> u8
        ensures { result ≡ (refusal self.now).number }
    {
        self.refusal().number
    }

    /// Its layer.
    pub fn layer(&self) -> Layer
        ensures { result ≡ (refusal self.now).layer }
    {
        self.refusal().layer
    }

    /// Its place.
    pub fn place(&self) -> usize
        ensures { result ≡ (refusal self.now).place }
    {
        self.refusal().place
    }

    /// The fields finished or accepted before it.
    pub fn fields(&self) -> usize
        ensures { result ≡ (refusal self.now).fields }
    {
        self.refusal().fields
    }

    /// The cells of the string finished before it.
    pub fn cells(&self) -> usize
        ensures { result ≡ (refusal self.now).cells }
    {
        self.refusal().cells
    }
}

/// What a fault at a spot tells that is none of a string.
fn refusal_at(number: u8, layer: Layer, at: Spot) -> Refusal
    ensures { result ≡ told number layer at.place at.fields 0 }
{
    Refusal {
        number,
        layer,
        place: at.place,
        fields: at.fields,
        cells: 0,
    }
}

fn section_refusal(inside: InSection) -> Refusal
    ensures { result ≡ section_refusal inside }
{
    match inside {
        InSection::Own { fault, section, at } => refusal_at(
            fault as u8,
            Layer::Section(section),
            at,
        ),
        InSection::String(InString { fault, at, cells }) => Refusal {
            number: fault as u8,
            layer: Layer::String,
            place: at.place,
            fields: at.fields,
            cells,
        },
    }
}
