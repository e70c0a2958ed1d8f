//! Cells that tell a level.
ghost use Rattle.std.specs.Prelude.{◌≡◌, ℕ, ◌≤◌, map};
ghost use Rattle.charts.specs.Cells.{octet_level, marked_level, Stretch};
ghost use Rattle.charts.specs.Lawfulness.{octet_low, marked_low};

use crate::chart::Run;

/// A cell that tells a level.
pub trait Cell {
    /// The level that it tells.
    ghost tells: { Self → ℕ };

    /// The level that it tells.
    fn level(&self) -> u8
        ensures { result ≡ tells self.now };

    /// A level is 255 at most.
    ghost octet: { (c : Self) → tells c ≤ 255 };
}

/// A plain octet is its own level.
impl Cell for u8 {
    ghost tells = { octet_level };

    ghost octet = { octet_low };

    fn level(&self) -> u8 {
        *self
    }
}

/// The cause that marks a cell as normal.
pub const NORMAL: u8 = 1;

/// A cell of rain with an error cause.
#[derive(Clone, Copy, PartialEq, Eq, Debug)]
pub struct MarkedCell {
    pub rain: u8,
    pub cause: u8,
}

/// A marked cell tells its rain level if its cause is normal, and else 0.
impl Cell for MarkedCell {
    ghost tells = { λ c. marked_level c.rain c.cause };

    ghost octet = { λ c. marked_low c.rain c.cause };

    fn level(&self) -> u8 {
        let rain = self.rain;
        if self.cause == NORMAL { rain } else { 0 }
    }
}

/// The cells from the first on that have its level, as far as they go.
pub fn stretch<C: Cell>(cells: &[C]) -> Run
    ensures { Stretch (map C.tells cells.now) result.level result.length }
{
    let Some(first) = cells.first() else {
        return Run::default();
    };
    let level = first.level();
    let length = cells
        .iter()
        .take_while(|cell| cell.level() == level)
        .count();
    Run { level, length }
}
