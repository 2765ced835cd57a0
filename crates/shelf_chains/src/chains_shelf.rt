ghost use Rattle.std.specs.Prelude.{◌≡◌, ◌+◌, IfOk, map};
ghost use Rattle.std.specs.List.{range_with_len};
ghost use Rattle.shelf.specs.Holds.{all_nowhere};
ghost use Rattle.shelf_chains.specs.Means.{chains_hold};
ghost use Rattle.shelf_chains.specs.Rings.{lone};
ghost use Rattle.std.proofs.Common.{sym};

use super::chains::{Chains, Neighbours};
use shelf::Shelf;
use shelf::marks::Marks;
use std::alloc::{AllocError, Global};

/// So many nodes, each in a ring of its own.
fn alone(heap: Global, nodes: usize) -> Result<Vec<Neighbours>, AllocError>
    ensures { IfOk result (λ v. v.items ≡ map lone (range_with_len 0 nodes)) }
{
    let mut ring = Vec::with_capacity(heap, nodes)?;
    // Kept: room for all at once and a loop, since `collect` would go on in smaller steps where that much is refused, and write what it has first.
    for k in 0..nodes {
        ring.push_reserved(Neighbours { next: k, prev: k });
    }
    Ok(ring)
}

impl Chains {
    /// A shelf of so many items and buckets, with every item nowhere and no put done.
    pub fn new(heap: Global, items: u32, buckets: u32) -> Result<Chains, AllocError>
        ensures { IfOk result (λ s. chains_hold s ≡ all_nowhere items buckets) }
    {
        let marks = Marks::new(heap, items, buckets)?;
        let ring = alone(heap, items as usize + buckets as usize)?;
        Ok(Chains { marks, ring })
    }

    /// The node of a bucket.
    fn head(&self, bucket: u32) -> usize
        ensures { result ≡ (chains_hold self.now).items + bucket }
    {
        self.items() as usize + bucket as usize
    }
}

impl Shelf for Chains {
    ghost meaning = { chains_hold };

    ghost sized = { λ s. sym s.marks.marks.ok.0 };

    ghost inside = { λ s. s.marks.inside };

    ghost counted = { λ s. s.marks.counted };

    fn items(&self) -> u32 {
        self.marks.items()
    }

    fn buckets(&self) -> u32 {
        self.marks.buckets()
    }

    fn count(&self) -> u32 {
        self.marks.count()
    }

    fn bucket_of(&self, item: u32) -> Option<u32> {
        self.marks.bucket_of(item)
    }

    fn clear(&mut self) {
        // Kept: item numbers, as `lift` wants them; giving every node a ring of its own again would make clear grow with the buckets too. The count
        // alone is left to the marks, since no item stands by then.
        for item in 0..self.items() {
            self.lift(item);
        }
        self.marks.forget_puts();
    }

    fn put(&mut self, item: u32, bucket: u32) -> bool {
        let head = self.head(bucket);
        if !self.marks.put(item, bucket) {
            return false;
        }
        let i = item as usize;
        let next = self.ring[head].next;
        self.ring[i] = Neighbours { next, prev: head };
        self.ring[head].next = i;
        self.ring[next].prev = i;
        true
    }

    fn lift(&mut self, item: u32) {
        if self.bucket_of(item).is_none() {
            return;
        }
        let Neighbours { next, prev } = self.ring[item as usize];
        self.ring[prev].next = next;
        self.ring[next].prev = prev;
        self.marks.lift(item);
    }

    fn take(&mut self, bucket: u32) -> Option<u32> {
        let first = self.ring.get(self.head(bucket))?.next;
        if first >= self.items() as usize {
            return None;
        }
        let item = first as u32;
        self.lift(item);
        Some(item)
    }
}
