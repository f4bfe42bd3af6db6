ghost use Rattle.std.specs.Prelude.{◌≡◌, ℕ, suc, ◌<◌, ◌≤◌, true, false, map, length, ◌≢◌};
ghost use Rattle.parking.specs.Heaps.{InOrder, rank_at, Heaped};
ghost use Rattle.parking.specs.Places.{place_rank, index_of, FoundAt};
ghost use Rattle.std.specs.List.Sorted.{IsPermutation};
ghost use Rattle.tasks.specs.Orders.{option_flipped, wrapper_flipped};

use crate::heap::put_in_order;
use tasks::flip::flip_each;
use tasks::order_wrapper::OrderWrapper;

// The place of the pair with that index, in whatever order they are.
pub fn position_in<O: Copy>(places: &[Option<OrderWrapper<O>>], index: u64) -> Option<usize>
    ensures { FoundAt places.now index result }
{
    places
        .iter()
        .position(|place| place.is_some_and(|pair| pair.index == index))
}

// The place of the pair with that index. They are in order, so it is nowhere if the first has a higher one.
pub fn find_in<O: Copy>(places: &[Option<OrderWrapper<O>>], index: u64) -> Option<usize>
    requires { Heaped (place_rank index_of) places.now }
    ensures { FoundAt places.now index result }
{
    if let Some(Some(least)) = places.first() {
        if index < least.index {
            return None;
        }
    }
    position_in(places, index)
}

// Flips the top bit of every index, and puts the pairs in order again.
pub fn flip_in<O: Copy>(places: &mut [Option<OrderWrapper<O>>])
    ensures order { Heaped (place_rank index_of) places.new }
    ensures same { IsPermutation (map (option_flipped wrapper_flipped) places.old) places.new }
{
    flip_each(places);
    put_in_order(places);
}
