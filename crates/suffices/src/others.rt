ghost use Rattle.std.specs.Prelude.{◌≡◌, ℕ, ◌<◌, ◌≤◌, min, Some, None, length, MatchOption, slice_index};
ghost use Rattle.keeper.specs.Keeps.{delay_at};
ghost use Rattle.suffices.specs.Others.{LeastBut};

use keeper::Keeper;

/// Clears a keeper and gives each place the delay that the list has for it.
fn fill<K: Keeper>(keeper: &mut K, delays: &[u64])
    ensures fits { (K.Keeper.meaning keeper.old).places ≤ 4294967295 }
    ensures given { (p : ℕ) → p < min (length delays.now) (K.Keeper.meaning keeper.old).places
        → delay_at (K.Keeper.meaning keeper.new) p ≡ Some (slice_index delays.now p) }
    ensures rest { (p : ℕ) → min (length delays.now) (K.Keeper.meaning keeper.old).places ≤ p → delay_at (K.Keeper.meaning keeper.new) p ≡ None }
{
    keeper.clear();
    for (place, d) in (0..keeper.places()).zip(delays) {
        keeper.lower(place, *d);
    }
}

/// The least of a list of delays but for that at the place `out`, by a keeper: of as many as the keeper has places.
pub fn least_but<K: Keeper>(keeper: &mut K, delays: &[u64], out: u32) -> Option<u64>
    ensures { MatchOption result
        ((p : ℕ) → p < min (length delays.now) (K.Keeper.meaning keeper.old).places → p ≡ out)
        (λ d. LeastBut delays.now (min (length delays.now) (K.Keeper.meaning keeper.old).places) out d) }
{
    fill(keeper, delays);
    keeper.retire(out);
    keeper.least(0, u32::MAX)
}
