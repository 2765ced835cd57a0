ghost use Rattle.std.specs.Prelude.{◌≡◌, ◌+◌, ◌-◌, ◌*◌, ◌^◌, ◌≤◌};
ghost use Rattle.tree.specs.Components.{rounded_up};

/// How many buckets a node of that level and spread has: as many as cover its spread, rounded up, and one more.
pub(crate) fn buckets_for(spread: u64, level: u32) -> u64
    requires { (1 ≤ level) × (level ≤ 32) × (spread ≤ 2048 * 4294967295) }
    ensures { result ≡ rounded_up spread (2 ^ (level - 1)) + 1 }
{
    let width: u64 = 1 << (level - 1);
    spread.div_ceil(width) + 1
}
