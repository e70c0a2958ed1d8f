//! Writing octets into a lent buffer.
ghost use Rattle.std.specs.Prelude.{◌≡◌, ℕ, ◌+◌, ◌<◌, ◌≤◌, length, MatchOption};
ghost use Rattle.format.specs.Written.{written};

/// Writes the octets into the buffer from a place on and answers the place after them; where they do not fit, the
/// buffer stays as it is.
pub fn write_octets(buffer: &mut [u8], place: usize, octets: &[u8]) -> Option<usize>
    ensures { MatchOption result
        ((length buffer.old < place + length octets.now) × (buffer.new ≡ buffer.old))
        (λ next. (next ≡ place + length octets.now) × (next ≤ length buffer.old) × (buffer.new ≡ written buffer.old place octets.now)) }
{
    // by indices: of `get_mut` the proof does not learn that the buffer stays where it answers none
    if place > buffer.len() || octets.len() > buffer.len() - place {
        return None;
    }
    let next = place + octets.len();
    buffer[place..next].copy_from_slice(octets);
    Some(next)
}
