ghost use Rattle.std.specs.Prelude.{◌^◌, ◌<◌, vec_len};

/// A keeper that is a table of delays. A least looks through it.
#[derive(Drop)]
pub struct Table {
    pub(crate) delays: Vec<Option<u64>>,
    ghost few: { vec_len delays < 2 ^ 32 },
}
