//! Maps of levels.
ghost use Rattle.std.specs.Prelude.{◌≡◌, ℕ, ◌≤◌, length, replicate, slice_index, slice_set};

// No `impl Model`: the law of `Recoding` reads off a map that its entries are 255 at most, and a list would not say so.
/// A level for each of the 256 codes.
#[derive(Clone, Copy)]
pub struct LevelMap {
    table: [u8; 256],
    ghost octets: { (k : ℕ) → slice_index table k ≤ 255 },
}

impl LevelMap {
    /// The map that sends every code to level 0.
    pub fn new() -> LevelMap
        ensures { result.table ≡ replicate 256 0 }
    {
        LevelMap { table: [0; 256] }
    }

    /// Sends a code to a level from now on.
    pub fn set(&mut self, code: u8, level: u8)
        ensures { self.new.table ≡ slice_set self.old.table code level }
    {
        let entry = code as usize;
        self.table[entry] = level;
    }

    /// The level that a code is sent to.
    pub fn level(&self, code: u8) -> u8
        ensures { result ≡ slice_index self.now.table code }
    {
        self.table[code as usize]
    }
}
