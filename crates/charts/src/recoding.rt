//! A chart through a map of levels.
ghost use Rattle.std.specs.Prelude.{◌≡◌, replicate, slice_set};
ghost use Rattle.charts.specs.Recodings.{recoded, recoding_picture};
ghost use Rattle.charts.specs.Lawfulness.{lawful_recoded};

use crate::chart::{Chart, Run};
use crate::level_map::LevelMap;
use crate::size::Size;

/// The chart below with each level replaced by what the map sends it to.
#[derive(Drop)]
pub struct Recoding<C> {
    below: C,
    map: LevelMap,
}

impl<C: Chart> Recoding<C> {
    // `below` in these clauses and a window's: each of its own type
    /// The chart below through a new map, which sends every level to 0.
    pub fn over(below: C) -> Recoding<C>
        ensures below { result.below ≡ below }
        ensures picture { recoding_picture C.Chart.picture result ≡ recoded (replicate 256 0) (C.Chart.picture below) }
    {
        Recoding {
            below,
            map: LevelMap::new(),
        }
    }

    /// The chart below through a map.
    pub fn with_map(below: C, map: LevelMap) -> Recoding<C>
        ensures below { result.below ≡ below }
        ensures picture { recoding_picture C.Chart.picture result ≡ recoded map.table (C.Chart.picture below) }
    {
        Recoding { below, map }
    }

    /// Sends a level of the chart below to a level from now on.
    pub fn set(&mut self, code: u8, level: u8)
        ensures below { self.new.below ≡ self.old.below }
        ensures picture { recoding_picture C.Chart.picture self.new ≡ recoded (slice_set self.old.map.table code level) (C.Chart.picture self.old.below) }
    {
        self.map.set(code, level);
    }

    /// Hands the chart below back.
    pub fn into_below(self) -> C
        ensures { result ≡ self.below }
    {
        self.below
    }
}

impl<C: Chart> Chart for Recoding<C> {
    ghost picture = { recoding_picture C.Chart.picture };

    ghost lawful = { λ c. lawful_recoded c.map.table (C.Chart.picture c.below) (C.Chart.lawful c.below) c.map.octets };

    fn size(&self) -> Size {
        self.below.size()
    }

    fn run(&mut self, cell: usize) -> Run {
        let run = self.below.run(cell);
        if run.length == 0 {
            return run;
        }
        Run {
            level: self.map.level(run.level),
            length: run.length,
        }
    }
}
