ghost use Rattle.std.specs.Prelude.{take};
ghost use Rattle.parking.specs.Heaps.{Heaped};
ghost use Rattle.parking.specs.Places.{place_rank, index_of};

use crate::rank_heap::RankHeap;
use tasks::order_wrapper::OrderWrapper;

pub mod calls;

// Parking in the caller's memory: a heap of pairs, the least index in front.
pub struct IndexHeap<'a, O> {
    heap: RankHeap<'a, OrderWrapper<O>>,
    ghost in_order: { Heaped (place_rank index_of) (take heap.count heap.memory.now) },
}
