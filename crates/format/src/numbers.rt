//! Numbers in octets.
ghost use Rattle.std.specs.Prelude.{◌≡◌, ℕ, ◌^◌, ◌<◌, ◌≤◌, min, length, IfSome};
ghost use Rattle.format.specs.Numbers.{number, field, signed, signed_raw};

/// What the top bit of two octets is worth alone, for `signed` and `signed_raw`.
pub const TOP_OF_TWO: u32 = 32_768;

/// What the top bit of four octets is worth alone, for `signed` and `signed_raw`.
pub const TOP_OF_FOUR: u32 = 2_147_483_648;

/// The big-endian number in `width` octets from `octet` on, which is counted from 1; of what is past the end, or
/// past eight octets, nothing is read.
pub fn field(octets: &[u8], octet: usize, width: usize) -> u64
    ensures value { result ≡ field octets.now octet width }
    ensures bound { result < 256 ^ min width 8 }
{
    let first = octet.saturating_sub(1).min(octets.len());
    let count = width.min(8).min(octets.len() - first);
    number(&octets[first..first + count])
}

/// The big-endian number of at most eight octets.
fn number(octets: &[u8]) -> u64
    requires { length octets.now ≤ 8 }
    ensures value { result ≡ number octets.now }
    ensures bound { result < 256 ^ length octets.now }
{
    let mut n = 0u64;
    for b in octets {
        n = n * 256 + u64::from(*b);
    }
    n
}

/// The signed number that `raw` stands for: the top bit means minus, and the other bits are the magnitude.
pub fn signed(raw: u32, top: u32) -> i64
    ensures { result ≡ signed top raw }
{
    if raw < top {
        i64::from(raw)
    } else {
        -i64::from(raw - top)
    }
}

/// How a signed number is written, if its magnitude is below the top bit's worth: zero without that bit.
pub fn signed_raw(value: i32, top: u32) -> Option<u64>
    ensures raw { result ≡ signed_raw top value }
    ensures back { IfSome result (λ raw. signed top raw ≡ value) }
{
    let magnitude = value.unsigned_abs();
    if magnitude >= top {
        None
    } else if value < 0 {
        Some(u64::from(top) + u64::from(magnitude))
    } else {
        Some(u64::from(magnitude))
    }
}
