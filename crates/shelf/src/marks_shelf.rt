ghost use Rattle.std.specs.Prelude.{◌≡◌, IfOk};
ghost use Rattle.shelf.specs.Holds.{all_nowhere, uncounted};
ghost use Rattle.shelf.specs.Means.{marks_hold};
ghost use Rattle.std.proofs.Common.{sym};

use super::Shelf;
use super::marks::Marks;
use std::alloc::{AllocError, Global};

impl Marks {
    /// A shelf of so many items and buckets, with every item nowhere and no put done.
    pub fn new(heap: Global, items: u32, buckets: u32) -> Result<Marks, AllocError>
        ensures { IfOk result (λ s. marks_hold s ≡ all_nowhere items buckets) }
    {
        let marks = vec![in heap; None; items as usize]?;
        Ok(Marks {
            marks,
            buckets,
            puts: 0,
        })
    }

    /// Begins the count of puts again at 0, and leaves each item where it stands.
    pub fn forget_puts(&mut self)
        ensures { marks_hold self.new ≡ uncounted (marks_hold self.old) }
    {
        self.puts = 0;
    }
}

impl Shelf for Marks {
    ghost meaning = { marks_hold };

    ghost sized = { λ s. sym s.marks.ok.0 };

    ghost inside = { λ s. s.inside };

    ghost counted = { λ s. s.counted };

    fn items(&self) -> u32 {
        self.marks.len() as u32
    }

    fn buckets(&self) -> u32 {
        self.buckets
    }

    fn count(&self) -> u32 {
        self.puts
    }

    fn bucket_of(&self, item: u32) -> Option<u32> {
        self.marks.get(item as usize).copied().flatten()
    }

    fn clear(&mut self) {
        self.marks.fill(None);
        self.forget_puts();
    }

    fn put(&mut self, item: u32, bucket: u32) -> bool {
        let Some(mark) = self.marks.get_mut(item as usize) else {
            return false;
        };
        if mark.is_some() || bucket >= self.buckets || self.puts >= 65535 {
            return false;
        }
        *mark = Some(bucket);
        self.puts += 1;
        true
    }

    fn lift(&mut self, item: u32) {
        if let Some(mark) = self.marks.get_mut(item as usize) {
            *mark = None;
        }
    }

    fn take(&mut self, bucket: u32) -> Option<u32> {
        let i = self.marks.iter().position(|mark| *mark == Some(bucket))?;
        self.marks[i] = None;
        Some(i as u32)
    }
}
