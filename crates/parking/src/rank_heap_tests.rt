// The calls of a heap.
use crate::heap_in_order::HeapInOrder;
use crate::rank_heap::RankHeap;
use tasks::order_wrapper::OrderWrapper;

type Pairs<'a> = HeapInOrder<'a, OrderWrapper<u32>>;

// Memory that holds anything.
const PLACE: Option<OrderWrapper<u32>> = Some(OrderWrapper { data: 9, index: 9 });

fn pair(index: u64) -> OrderWrapper<u32> {
    OrderWrapper { data: 1, index }
}

// Puts a pair in where there is a place.
fn put(pairs: &mut Pairs<'_>, index: u64) -> bool {
    let room = pairs.heap.count() < pairs.heap.places();
    if room {
        pairs.heap.put(pair(index));
    }
    room
}

// Takes out the pair at a place, if it is used.
fn take_at(pairs: &mut Pairs<'_>, at: usize) -> Option<OrderWrapper<u32>> {
    if at < pairs.heap.count() {
        return Some(pairs.heap.take_at(at));
    }
    None
}

// Takes out the pair with an index.
fn take(pairs: &mut Pairs<'_>, index: u64) -> Option<u32> {
    pairs.heap.take(index)
}

// The same, by the order of the heap.
fn take_ranked(pairs: &mut Pairs<'_>, index: u64) -> Option<u32> {
    pairs.heap.take_ranked(index)
}

#[test]
fn a_heap_puts_and_takes(rt: HostRuntime) {
    let mut memory = [PLACE; 3];
    let mut pairs = HeapInOrder {
        heap: RankHeap::new(&mut memory),
    };
    assert_eq!(rt; put(&mut pairs, 7), true);
    assert_eq!(rt; put(&mut pairs, 5), true);
    assert_eq!(rt; put(&mut pairs, 6), true);
    assert_eq!(rt; put(&mut pairs, 8), false);
    assert_eq!(rt; take(&mut pairs, 8), None);
    assert_eq!(rt; take(&mut pairs, 6), Some(1));
    assert_eq!(rt; take(&mut pairs, 6), None);
    assert_eq!(rt; put(&mut pairs, 4), true);
    assert_eq!(rt; take_at(&mut pairs, 0), Some(pair(4)));
    assert_eq!(rt; take_at(&mut pairs, 0), Some(pair(5)));
    assert_eq!(rt; take_at(&mut pairs, 1), None);
    assert_eq!(rt; take_ranked(&mut pairs, 6), None);
    assert_eq!(rt; take_ranked(&mut pairs, 7), Some(1));
    assert_eq!(rt; pairs.heap.count(), 0);
    let HeapInOrder { heap } = pairs;
    assert_eq!(rt; heap.into_memory().len(), 3);
}
