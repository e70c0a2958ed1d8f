//! The lamps that the levels of a field light.
ghost use Rattle.std.specs.Prelude.{◌≡◌, ◌^◌, ◌≤◌, length, IfSome};
ghost use Rattle.sections.specs.Sections.{held_packing};
ghost use Rattle.loader.specs.Lamps.{lamp, lamps_of, reaches};

use charts::level_map::LevelMap;
use sections::packing::{Packing, Value};

/// The values, in millimetres, from which the lamps after the first are lit.
pub const LAMP_BOUNDS: [u32; 7] = [1, 5, 10, 20, 30, 50, 80];

/// Whether a value is at least a bound, which is worth `bound` times `unit` of its number.
fn reaches(value: Value, unit: u64, bound: u32) -> bool
    requires scaled { value.scale ≤ 6 }
    requires unit { unit ≡ 10 ^ value.scale }
    ensures { result ≡ reaches value bound }
{
    let least = u64::from(bound) * unit;
    i64::from(value.number) >= least as i64
}

/// The lamp of a value: 0 if there is none, and else one more than the number of bounds that it reaches.
fn lamp_of(bounds: &[u32], value: Option<Value>) -> u8
    requires few { length bounds.now ≤ 254 }
    requires scaled { IfSome value (λ v. v.scale ≤ 6) }
    ensures { result ≡ lamp bounds.now value }
{
    let Some(value) = value else {
        return 0;
    };
    let unit = 10_u64.pow(u32::from(value.scale));
    let reached = bounds.iter().filter(|bound| reaches(value, unit, **bound));
    reached.count() as u8 + 1
}

/// The lamps of all levels under a packing.
pub(crate) fn lamps_of(bounds: &[u32], packing: Packing<&[u8]>) -> LevelMap
    requires few { length bounds.now ≤ 254 }
    requires scaled { packing.scale ≤ 6 }
    ensures { result.table ≡ lamps_of bounds.now (held_packing packing.entry) }
{
    let mut map = LevelMap::new();
    for code in 0..=u8::MAX {
        map.set(code, lamp_of(bounds, packing.value(code)));
    }
    map
}
