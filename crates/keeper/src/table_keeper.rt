ghost use Rattle.std.specs.Prelude.{◌≡◌, IfOk};
ghost use Rattle.keeper.specs.Keeps.{all_none};
ghost use Rattle.keeper.specs.Means.{table_keeps};
ghost use Rattle.std.proofs.Common.{sym};

use super::Keeper;
use super::table::Table;
use std::alloc::{AllocError, Global};

impl Table {
    /// A keeper of so many places, each with none.
    pub fn new(heap: Global, places: u32) -> Result<Table, AllocError>
        ensures { IfOk result (λ s. table_keeps s ≡ all_none places) }
    {
        let delays = vec![in heap; None; places as usize]?;
        Ok(Table { delays })
    }
}

impl Keeper for Table {
    ghost meaning = { table_keeps };

    ghost sized = { λ s. sym s.delays.ok.0 };

    fn places(&self) -> u32 {
        self.delays.len() as u32
    }

    fn clear(&mut self) {
        self.delays.fill(None);
    }

    fn lower(&mut self, place: u32, d: u64) -> bool {
        let Some(slot) = self.delays.get_mut(place as usize) else {
            return false;
        };
        if slot.is_some_and(|y| y <= d) {
            return false;
        }
        *slot = Some(d);
        true
    }

    fn retire(&mut self, place: u32) {
        if let Some(slot) = self.delays.get_mut(place as usize) {
            *slot = None;
        }
    }

    fn least(&self, first: u32, last: u32) -> Option<u64> {
        let end = self.delays.len().min(last as usize + 1);
        let start = end.min(first as usize);
        self.delays[start..end].iter().filter_map(|d| *d).min()
    }
}
