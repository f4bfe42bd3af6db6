ghost use Rattle.std.specs.Prelude.{◌≡◌, ◌-◌, ◌<◌, ◌≤◌, length, take, Some, slice_set};
ghost use Rattle.parking.specs.Heaps.{InOrder, rank_at, Heaped};
ghost use Rattle.parking.specs.Places.{place_rank, Filled};
ghost use Rattle.std.specs.List.Sorted.{IsPermutation};

use crate::heap::{move_to_end, sift_up};
use crate::pairs::{find_in, flip_in, position_in};
use crate::rank::Rank;
use tasks::order_wrapper::OrderWrapper;

// A heap has at most that many places.
const MOST_PLACES: usize = 65536;

// A heap of entries in the first places of the caller's memory; the entry that ranks least is in front. Its places lie in
// the memory and are at most 65,536, no more are used than there are, and those used hold an entry each. A heap is made in
// order and each call keeps it so. That it is so is a fact of what holds a heap: as one of this type it would ask for a bound
// wherever the type is named. Nothing is allocated, so the numbers of places and of entries stand beside the memory.
pub struct RankHeap<'a, E> {
    memory: &'a mut [Option<E>],
    places: usize,
    count: usize,
    ghost within: { places ≤ length memory.now },
    ghost cut: { places ≤ 65536 },
    ghost few: { count ≤ places },
    ghost holding: { Filled (take count memory.now) },
}

// Puts an entry into the last place. If the others are in order, all are then.
fn put_last<E: Rank + Copy>(places: &mut [Option<E>], entry: E)
    requires { 0 < length places.old }
    ensures order { InOrder (rank_at (place_rank E.Rank.rank) places.old) (length places.old - 1) → Heaped (place_rank E.Rank.rank) places.new }
    ensures same { IsPermutation (slice_set places.old (length places.old - 1) (Some entry)) places.new }
{
    let last = places.len() - 1;
    places[last] = Some(entry);
    sift_up(places, last);
}

impl<'a, E: Rank + Copy> RankHeap<'a, E> {
    ghost use Rattle.std.specs.Prelude.{[], ◌∷◌, min, drop};
    ghost use Rattle.parking.specs.Held.{held, used, with_bag, Ranked};

    // An empty heap in that memory, whatever it holds.
    pub fn new(memory: &'a mut [Option<E>]) -> RankHeap<'a, E>
        ensures fresh { held result ≡ record { bag = []; places = min (length memory.old) 65536; beyond = drop (min (length memory.old) 65536) memory.old } }
        ensures order { Ranked E.Rank.rank result }
    {
        let places = memory.len().min(MOST_PLACES);
        RankHeap {
            memory,
            places,
            count: 0,
        }
    }

    // Takes everything out.
    pub fn clear(&mut self)
        ensures after { held self.new ≡ with_bag (held self.old) [] }
        ensures order { Ranked E.Rank.rank self.new }
    {
        self.count = 0;
    }

    // How many entries there are.
    pub fn count(&self) -> usize
        ensures bag { result ≡ length (held self.now).bag }
        ensures field { result ≡ self.now.count }
    {
        self.count
    }

    // How many places there are.
    pub fn places(&self) -> usize
        ensures { result ≡ (held self.now).places }
    {
        self.places
    }

    // Puts an entry in. A heap in order stays so.
    pub fn put(&mut self, entry: E)
        requires { self.old.count < self.old.places }
        ensures bag { IsPermutation (entry ∷ (held self.old).bag) (held self.new).bag }
        ensures rest { held self.new ≡ with_bag (held self.old) (held self.new).bag }
        ensures order { Ranked E.Rank.rank self.old → Ranked E.Rank.rank self.new }
    {
        put_last(&mut self.memory[..self.count + 1], entry);
        self.count += 1;
    }

    // Takes out the entry at a place. A heap in order stays so.
    pub fn take_at(&mut self, at: usize) -> E
        requires { at < self.old.count }
        ensures bag { IsPermutation (held self.old).bag (result ∷ (held self.new).bag) }
        ensures rank { place_rank E.Rank.rank (Some result) ≡ rank_at (place_rank E.Rank.rank) (used self.old) at }
        ensures rest { held self.new ≡ with_bag (held self.old) (held self.new).bag }
        ensures order { Ranked E.Rank.rank self.old → Ranked E.Rank.rank self.new }
    {
        let end = self.count;
        self.count = end - 1;
        move_to_end(&mut self.memory[..end], at).unwrap()
    }

    // Gives the memory back as it is. A heap is not Drop, so it is taken apart to get at it, here and in what holds a heap.
    pub fn into_memory(self) -> &'a mut [Option<E>]
        ensures { result.now ≡ self.entry.memory.now }
    {
        let RankHeap {
            memory,
            places: _,
            count: _,
        } = self;
        memory
    }
}

impl<'a, O: Copy> RankHeap<'a, OrderWrapper<O>> {
    ghost use Rattle.std.specs.Prelude.{map};
    ghost use Rattle.parking.specs.Bags.{Taken};
    ghost use Rattle.parking.specs.Held.{held, used, with_bag, Ranked};
    ghost use Rattle.parking.specs.Places.{FoundAt, index_of};
    ghost use Rattle.tasks.specs.Orders.{wrapper_flipped};

    // The place of the pair with that index. This and `find_ranked` are functions of their own, since the checker covers no such
    // read in `take` and `take_ranked`.
    fn find(&self, index: u64) -> Option<usize>
        ensures { FoundAt (used self.now) index result }
    {
        position_in(&self.memory[..self.count], index)
    }

    // The same in a heap in order: an index below the first is not looked for.
    fn find_ranked(&self, index: u64) -> Option<usize>
        requires { Ranked index_of self.now }
        ensures { FoundAt (used self.now) index result }
    {
        find_in(&self.memory[..self.count], index)
    }

    // Takes out the pair with that index, if it is there, and answers its output. The used places are looked through.
    // A heap in order stays so.
    pub fn take(&mut self, index: u64) -> Option<O>
        ensures taken { Taken index (held self.old).bag result (held self.new).bag }
        ensures rest { held self.new ≡ with_bag (held self.old) (held self.new).bag }
        ensures order { Ranked index_of self.old → Ranked index_of self.new }
    {
        let at = self.find(index)?;
        Some(self.take_at(at).data)
    }

    // The same from a heap in order: an index below the first is not looked for.
    pub fn take_ranked(&mut self, index: u64) -> Option<O>
        requires { Ranked index_of self.old }
        ensures taken { Taken index (held self.old).bag result (held self.new).bag }
        ensures rest { held self.new ≡ with_bag (held self.old) (held self.new).bag }
        ensures order { Ranked index_of self.new }
    {
        let at = self.find_ranked(index)?;
        Some(self.take_at(at).data)
    }

    // Flips the top bit of every index.
    pub fn flip(&mut self)
        ensures bag { IsPermutation (map wrapper_flipped (held self.old).bag) (held self.new).bag }
        ensures rest { held self.new ≡ with_bag (held self.old) (held self.new).bag }
        ensures order { Ranked index_of self.new }
    {
        flip_in(&mut self.memory[..self.count]);
    }
}
