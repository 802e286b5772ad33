ghost use Rattle.std.specs.Prelude.{◌≡◌, slice_index};

/// The unit at a place, or 0 where there is none.
pub fn at(units: &[u16], index: usize) -> u16
    ensures { result ≡ slice_index units.now index }
{
    if index < units.len() { units[index] } else { 0 }
}
