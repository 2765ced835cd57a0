ghost use Rattle.std.specs.Prelude.{◌≡◌, ℕ, ◌<◌, ◌≤◌, vec_len, slice_index_or};
ghost use Rattle.network.specs.Rows.{Sound};
ghost use Rattle.network.specs.Entries.{no_entry};

use super::entry::Entry;

/// The stations and links of one scheme, as plain rows that were checked, and where each link stands. No other scheme can exist:
/// 1 to 512 stations, and at most 2,048 links, the row of each of which describes a link.
#[derive(Drop)]
pub struct Scheme {
    pub stations: u32,
    pub links: Vec<Entry>,
    ghost some: { 1 ≤ stations },
    ghost most: { stations ≤ 512 },
    ghost few: { vec_len links ≤ 2048 },
    ghost sound: { (k : ℕ) → k < vec_len links → Sound stations (slice_index_or links.items k no_entry).row },
    ghost bounded: { (k : ℕ) → k < vec_len links → (slice_index_or links.items k no_entry).row.ns ≤ 4294967295 },
}
