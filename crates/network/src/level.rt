ghost use Rattle.std.specs.Prelude.{◌≡◌, ℕ, ◌≤◌};
ghost use Rattle.network.specs.Levels.{IsLevel};

/// The level of a delay of `ns` nanoseconds, at least 1: the i with 2^(i−1) ≤ ns < 2^i, the number of its binary digits.
/// No time at all, which is no delay, has level 0.
pub fn level(ns: u32) -> u32
    ensures delay { 1 ≤ ns → IsLevel ns result }
    ensures nothing { ns ≡ 0 → result ≡ 0 }
{
    32 - ns.leading_zeros()
}
