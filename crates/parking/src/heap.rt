ghost use Rattle.std.specs.Prelude.{◌≡◌, ℕ, ◌+◌, ◌-◌, ◌*◌, ◌/◌, ◌<◌, ◌≤◌, [], ◌∷◌, ◌++◌, length, take, nat_lt};
ghost use Rattle.parking.specs.Heaps.{rank_at, InOrder, ButBelow, LeastChild, Heaped};
ghost use Rattle.std.specs.List.Sorted.{IsPermutation};

use crate::rank::Rank;

// These work on the parts of a heap's memory, and only exchange entries. What they say of their order is said of parts that
// were in order up to a place, or but for one; `put_in_order` puts any in order. That the whole is in order is a fact of
// `IndexHeap` and of `HeapInOrder`.

// Whether the entry at one place ranks below the entry at another.
fn ranks_below<T: Rank + Copy>(entries: &[T], a: usize, b: usize) -> bool
    requires { (a < length entries.now) × (b < length entries.now) }
    ensures { result ≡ nat_lt (rank_at T.Rank.rank entries.now a) (rank_at T.Rank.rank entries.now b) }
{
    entries[a].is_below(&entries[b])
}

// Lets the entry at a place rise until it does not rank below its parent. If the entries before it are in order, they are
// with it.
pub fn sift_up<T: Rank + Copy>(entries: &mut [T], at: usize)
    requires { at < length entries.old }
    ensures order { InOrder (rank_at T.Rank.rank entries.old) at → InOrder (rank_at T.Rank.rank entries.new) (at + 1) }
    ensures same { IsPermutation entries.old entries.new }
{
    // the place is halved each time, which no iterator does
    let mut i = at;
    while i > 0 {
        let parent = (i - 1) / 2;
        if !ranks_below(entries, i, parent) {
            break;
        }
        entries.swap(i, parent);
        i = parent;
    }
}

// The child of a place that ranks least.
fn least_child<T: Rank + Copy>(entries: &[T], i: usize) -> usize
    requires { i < length entries.now / 2 }
    ensures { LeastChild (rank_at T.Rank.rank entries.now) (length entries.now) i result }
{
    let left = 2 * i + 1;
    if left + 1 < entries.len() && ranks_below(entries, left + 1, left) {
        return left + 1;
    }
    left
}

// Lets the first entry sink until none of its children ranks below it. If all the others are in order, all are then.
pub fn sift_down<T: Rank + Copy>(entries: &mut [T])
    ensures order { ButBelow (rank_at T.Rank.rank entries.old) (length entries.old) 0 → Heaped T.Rank.rank entries.new }
    ensures same { IsPermutation entries.old entries.new }
{
    // the place is doubled each time, or doubled and raised, which no iterator does
    let mut i = 0;
    while i < entries.len() / 2 {
        let child = least_child(entries, i);
        if !ranks_below(entries, child, i) {
            break;
        }
        entries.swap(i, child);
        i = child;
    }
}

// Puts all entries in order. Each step changes the slice, so it goes over places and not over entries.
pub fn put_in_order<T: Rank + Copy>(entries: &mut [T])
    ensures order { Heaped T.Rank.rank entries.new }
    ensures same { IsPermutation entries.old entries.new }
{
    for i in 0..entries.len() {
        sift_up(entries, i);
    }
}

// Moves the entry at a place to the end and answers it. The others are in order again, if all were.
pub fn move_to_end<T: Rank + Copy>(entries: &mut [T], at: usize) -> T
    requires { at < length entries.old }
    ensures order { Heaped T.Rank.rank entries.old → Heaped T.Rank.rank (take (length entries.old - 1) entries.new) }
    ensures same { IsPermutation entries.old entries.new }
    ensures last { entries.new ≡ take (length entries.old - 1) entries.new ++ result ∷ [] }
    ensures rank { T.Rank.rank result ≡ rank_at T.Rank.rank entries.old at }
{
    let last = entries.len() - 1;
    let moved = entries[at];
    entries.swap(at, last);
    if at == 0 {
        sift_down(&mut entries[..last]);
    } else {
        put_in_order(&mut entries[..last]);
    }
    moved
}
