ghost use Rattle.parking.specs.Held.{Ranked};

use crate::rank::Rank;
use crate::rank_heap::RankHeap;

// A heap of which the type tells that it is in order. It asks for the bound; `IndexHeap`, which holds pairs alone, does not.
pub struct HeapInOrder<'a, E: Rank> {
    pub heap: RankHeap<'a, E>,
    ghost in_order: { Ranked E.Rank.rank heap },
}
