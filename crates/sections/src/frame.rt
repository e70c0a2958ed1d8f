//! Section 3: the frame of a field, which says where its cells lie.
ghost use Rattle.std.specs.Prelude.{◌≡◌, ℕ, ◌^◌, ◌<◌, ◌≤◌, ◌≤ℤ◌};
ghost use Rattle.sections.specs.Sections.{frame_of};
ghost use Rattle.sections.specs.Positions.{nearest, along, latitude_of, longitude_of, position_of, NearestHalvesUp};

use crate::rules::latitude;
use format::numbers::field;

/// A grid of latitude and longitude. Angles are in millionths of a degree.
#[derive(Clone, Copy, PartialEq, Eq, Debug)]
pub struct Frame {
    /// The cells in a row, from west to east.
    pub ni: u32,
    /// The rows, from north to south.
    pub nj: u32,
    /// The first cell's latitude and longitude.
    pub la1: i32,
    pub lo1: u32,
    /// The last cell's latitude and longitude.
    pub la2: i32,
    pub lo2: u32,
    /// The stated steps from column to column and from row to row.
    pub di: u32,
    pub dj: u32,
}

// no `From<&[u8]>`: that would say it of any octets, and this names the section
/// The frame that section 3 says.
pub fn frame_of(section: &[u8]) -> Frame
    ensures { result ≡ frame_of section.now }
{
    Frame {
        ni: field(section, 31, 4) as u32,
        nj: field(section, 35, 4) as u32,
        la1: latitude(section, 47),
        lo1: field(section, 51, 4) as u32,
        la2: latitude(section, 56),
        lo2: field(section, 60, 4) as u32,
        di: field(section, 64, 4) as u32,
        dj: field(section, 68, 4) as u32,
    }
}

/// Where a cell lies, in millionths of a degree.
#[derive(Clone, Copy, PartialEq, Eq, Debug)]
pub struct Position {
    pub latitude: i32,
    pub longitude: u32,
}

/// The quotient to the nearest whole number, halves up.
fn nearest(whole: u64, parts: u64) -> u64
    requires { (0 < parts) × (parts < 2 ^ 32) }
    ensures { result ≡ nearest whole parts }
{
    let quotient = whole / parts;
    if 2 * (whole % parts) >= parts {
        quotient + 1
    } else {
        quotient
    }
}

/// How far the `k`-th of `count` points, counted from 0, lies from the first, where the last lies `span` from it.
fn along(span: u32, count: u32, k: u32) -> u32
    requires { k < count }
    ensures value { result ≡ along span count k }
    ensures bound { result ≤ span }
{
    if count == 1 {
        return 0;
    }
    nearest(u64::from(span) * u64::from(k), u64::from(count - 1)) as u32
}

impl Frame {
    /// The latitude of a row of the frame.
    fn latitude_of(&self, row: u32) -> i32
        requires { (row < self.now.nj) × (self.now.la2 ≤ℤ self.now.la1) }
        ensures { result ≡ latitude_of self.now row }
    {
        let south = along(self.la1.abs_diff(self.la2), self.nj, row);
        (i64::from(self.la1) - i64::from(south)) as i32
    }

    /// The longitude of a column of the frame.
    fn longitude_of(&self, column: u32) -> u32
        requires { (column < self.now.ni) × (self.now.lo1 ≤ self.now.lo2) }
        ensures { result ≡ longitude_of self.now column }
    {
        self.lo1 + along(self.lo2 - self.lo1, self.ni, column)
    }

    // two numbers and no struct: a place of 32 bits here, and of a chart elsewhere, would be made to be taken apart
    /// Where the cell of a column and a row lies, both counted from 0; a cell outside has no position, and no cell of
    /// a frame whose last cell lies north or west of its first has one.
    pub fn position(&self, column: u32, row: u32) -> Option<Position>
        ensures position { result ≡ position_of self.now column row }
        ensures rounds { NearestHalvesUp }
    {
        if column >= self.ni || row >= self.nj || self.la1 < self.la2 || self.lo2 < self.lo1 {
            return None;
        }
        Some(Position {
            latitude: self.latitude_of(row),
            longitude: self.longitude_of(column),
        })
    }
}
