//! The comparison of loads.
ghost use Rattle.std.specs.Prelude.{◌≤◌, ◌*◌, ◌↔◌, IsTrue};

/// Whether the first of a pair is taken: its load is at most that of the second, each as against
/// its weight.
pub fn lesser(first: u64, weight_first: u64, second: u64, weight_second: u64) -> bool
    ensures { IsTrue result ↔ (first * weight_second ≤ second * weight_first) }
{
    u128::from(first) * u128::from(weight_second) <= u128::from(second) * u128::from(weight_first)
}
