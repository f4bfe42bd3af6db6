ghost use Rattle.std.specs.Prelude.{◌≡◌, ℕ, ◌+◌, ◌<◌, true, length, is_some, if◌then◌else◌, slice_set};
ghost use Rattle.slots.specs.Flips.{slot_flipped};
ghost use Rattle.slots.specs.Polls.{pair_of, slots_after};
ghost use Rattle.slots.specs.Table.{fresh_slots, task_at, occupied_at, next_link};
ghost use Rattle.slots.specs.declared.slot.Slot.TheVariants.{Occupied, NextFree};
ghost use Rattle.std.specs.List.{slice_get};

use crate::slot::Slot;
use tasks::flip::Flip;
use tasks::poll::Poll;
use tasks::poll_fn::PollFn;

// Makes every slot vacant; slot i points to i + 1.
pub fn fresh_in<F: Copy>(slots: &mut [Slot<F>])
    ensures { slots.new ≡ fresh_slots (length slots.old) }
{
    for (i, slot) in slots.iter_mut().enumerate() {
        *slot = Slot::NextFree(i + 1);
    }
}

// Puts a task into a slot, and tells the number that the vacant slot held.
pub fn insert_in<F: Copy>(slots: &mut [Slot<F>], key: usize, task: F) -> usize
    requires { key < length slots.old }
    ensures next { result ≡ next_link (slice_get slots.old key) }
    ensures slots { slots.new ≡ slice_set slots.old key (Occupied task) }
{
    let next = next_in(slots, key);
    slots[key] = Slot::Occupied(task);
    next
}

// The number that a vacant slot holds; by its definition 0 where there is none.
fn next_in<F: Copy>(slots: &[Slot<F>], key: usize) -> usize
    ensures { result ≡ next_link (slice_get slots.now key) }
{
    match slots.get(key) {
        Some(Slot::NextFree(next)) => *next,
        _ => 0,
    }
}

// Makes an occupied slot vacant, and tells whether it was occupied.
pub fn remove_in<F: Copy>(slots: &mut [Slot<F>], free_head: usize, key: usize) -> bool
    ensures found { result ≡ occupied_at slots.old key }
    ensures slots { slots.new ≡ (if result then slice_set slots.old key (NextFree free_head) else slots.old) }
{
    let occupied = get_in(slots, key).is_some();
    if occupied {
        slots[key] = Slot::NextFree(free_head);
    }
    occupied
}

// The task in a slot.
pub fn get_in<F: Copy>(slots: &[Slot<F>], key: usize) -> Option<F>
    ensures task { result ≡ task_at slots.now key }
    ensures within { is_some result ≡ true → key < length slots.now }
{
    match slots.get(key)? {
        Slot::Occupied(task) => Some(*task),
        Slot::NextFree(_) => None,
    }
}

// Polls the task in a slot, in place. The pair is the task's own.
pub fn poll_in<F: Copy, P: PollFn<F>>(
    slots: &mut [Slot<F>],
    key: usize,
    post: &[u64],
) -> Option<(bool, Poll<P::Answer>)>
    ensures pair { result ≡ pair_of P.PollFn.acts post.now (task_at slots.old key) }
    ensures slots { slots.new ≡ slots_after P.PollFn.acts post.now slots.old key (task_at slots.old key) }
{
    if key >= slots.len() {
        return None;
    }
    match &mut slots[key] {
        Slot::Occupied(task) => Some(P::poll(task, post)),
        Slot::NextFree(_) => None,
    }
}

impl<F: Flip> Flip for Slot<F> {
    ghost flipped = { slot_flipped F.Flip.flipped };

    fn flipped(self) -> Slot<F> {
        match self {
            Slot::Occupied(task) => Slot::Occupied(task.flipped()),
            Slot::NextFree(next) => Slot::NextFree(next),
        }
    }
}
