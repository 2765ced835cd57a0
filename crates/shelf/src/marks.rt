ghost use Rattle.std.specs.Prelude.{◌≡◌, ℕ, ◌^◌, ◌<◌, ◌≤◌, Some, None, vec_len, slice_index_or};

/// A shelf with one bucket mark per item. A take looks through the items.
#[derive(Drop)]
pub struct Marks {
    pub(crate) marks: Vec<Option<u32>>,
    pub(crate) buckets: u32,
    pub(crate) puts: u32,
    ghost few: { vec_len marks < 2 ^ 32 },
    ghost inside: { (i b : ℕ) → slice_index_or marks.items i None ≡ Some b → b < buckets },
    ghost counted: { puts ≤ 65535 },
}
