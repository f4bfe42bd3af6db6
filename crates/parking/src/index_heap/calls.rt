ghost use Rattle.std.specs.Prelude.{◌≡◌, ℕ, min, List, [], length, drop, Option as Maybe};
ghost use Rattle.parking.specs.HeldPairs.{held_pairs};
ghost use Rattle.parking.specs.Held.{held};
ghost use Rattle.tasks.specs.declared.fault.Fault.TheVariants.{ParkingFull};
ghost use Rattle.tasks.specs.declared.order_wrapper.OrderWrapper.{OrderWrapper as Pair};

use crate::index_heap::IndexHeap;
use crate::parking::{Parking, Unfit};
use crate::rank_heap::RankHeap;
use tasks::fault::Fault;
use tasks::order_wrapper::OrderWrapper;

impl<'a, O: Copy> IndexHeap<'a, O> {
    // An empty parking in that memory, whatever it holds. It has a place for each, and at most 65,536.
    pub fn new(memory: &'a mut [Option<OrderWrapper<O>>]) -> IndexHeap<'a, O>
        ensures { held_pairs result ≡ record { bag = []; places = min (length memory.old) 65536; beyond = drop (min (length memory.old) 65536) memory.old } }
    {
        IndexHeap {
            heap: RankHeap::new(memory),
        }
    }

    // Gives the memory back as it is.
    pub fn into_memory(self) -> &'a mut [Option<OrderWrapper<O>>]
        ensures { result.now ≡ self.entry.heap.memory.now }
    {
        let IndexHeap { heap } = self;
        heap.into_memory()
    }
}

impl<'a, O: Copy> Parking for IndexHeap<'a, O> {
    type Output = O;

    ghost bag = { λ h. (held_pairs h).bag };

    ghost places = { λ h. (held_pairs h).places };

    ghost Rest = { List (Maybe (Pair O)) };

    ghost rest = { λ h. (held_pairs h).beyond };

    ghost secures = { λ h count n. (n ≡ (held_pairs h).places) };

    ghost full = { λ places count. ParkingFull places };

    fn clear(&mut self) {
        self.heap.clear();
    }

    fn secure(&mut self, count: usize) -> Result<(), Fault> {
        let places = self.heap.places();
        if count < places {
            return Ok(());
        }
        Err(Fault::ParkingFull { places })
    }

    fn put(&mut self, index: u64, output: O) -> Result<(), O> {
        if self.heap.count() < self.heap.places() {
            self.heap.put(OrderWrapper {
                data: output,
                index,
            });
            return Ok(());
        }
        Err(output)
    }

    fn take(&mut self, index: u64) -> Option<O> {
        self.heap.take_ranked(index)
    }

    fn count(&self) -> usize {
        self.heap.count()
    }

    fn flip(&mut self) -> Result<(), Unfit> {
        self.heap.flip();
        Ok(())
    }
}
