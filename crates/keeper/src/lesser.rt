ghost use Rattle.std.specs.Prelude.{◌≡◌};
ghost use Rattle.keeper.specs.Lesser.{lesser_of};

/// The lesser of two delays; one that is missing never is.
pub fn lesser(a: Option<u64>, b: Option<u64>) -> Option<u64>
    ensures { result ≡ lesser_of a b }
{
    match (a, b) {
        (None, only) | (only, None) => only,
        (Some(x), Some(y)) => Some(x.min(y)),
    }
}
