ghost use Rattle.std.specs.Prelude.{◌≡◌, ◌≤◌, length};
ghost use Rattle.slots.specs.Table.{Chained, len as tasks_in};
ghost use Rattle.std.specs.List.{between};

use crate::slot::Slot;
use crate::table::{fresh_in, get_in, insert_in, poll_in, remove_in};
use lists::part::Part;
use tasks::flip::{Flip, flip_each};
use tasks::poll::Poll;
use tasks::poll_fn::PollFn;

// A table of slots in a part of the caller's memory. The free slots are chained from the free head on.
pub struct PinSlotMap<'a, F> {
    slots: &'a mut [Slot<F>],
    part: Part,
    free_head: usize,
    filled: usize,
    ghost starts: { part.start ≤ part.end },
    ghost within: { part.end ≤ length slots.now },
    ghost free_chained: { Chained (between part.start part.end slots.now) free_head },
    ghost counted: { filled ≡ tasks_in (between part.start part.end slots.now) },
}

impl<'a, F: Copy> PinSlotMap<'a, F> {
    ghost use Rattle.std.specs.Prelude.{◌-◌, ◌<◌, take, drop, IfOk, if◌then◌else◌, Ok, Err};
    ghost use Rattle.slots.specs.Held.{held, with_table, slots_of};
    ghost use Rattle.slots.specs.Polls.{pair_of, polled_at};
    ghost use Rattle.slots.specs.Table.{fresh, inserted, removed, task_at, full};

    // A fresh table in that part of the memory.
    pub fn new(slots: &'a mut [Slot<F>], part: Part) -> PinSlotMap<'a, F>
        requires { (part.start ≤ part.end) × (part.end ≤ length slots.old) }
        ensures { held result ≡ record { before = take part.start slots.old; table = fresh (part.end - part.start); beyond = drop part.end slots.old } }
    {
        fresh_in(&mut slots[part.start..part.end]);
        PinSlotMap {
            slots,
            part,
            free_head: 0,
            filled: 0,
        }
    }

    // Puts a task into the free head, or hands it back where no slot is vacant.
    pub fn insert(&mut self, task: F) -> Result<usize, F>
        ensures answer { result ≡ (if full (slots_of self.old) then Err task else Ok self.old.free_head) }
        ensures after { held self.new ≡ with_table (held self.old) (inserted (held self.old).table task) }
        ensures within { IfOk result (λ i. i < length (slots_of self.old)) }
    {
        let key = self.free_head;
        let part = self.part;
        if key >= part.len() {
            return Err(task);
        }
        let next_free = insert_in(&mut self.slots[part.start..part.end], key, task);
        self.free_head = next_free;
        self.filled += 1;
        Ok(key)
    }

    // Vacates a slot, which becomes the free head. Nothing happens on a vacant slot.
    pub fn remove(&mut self, key: usize)
        ensures { held self.new ≡ with_table (held self.old) (removed (held self.old).table key) }
    {
        let free_head = self.free_head;
        let part = self.part;
        if remove_in(&mut self.slots[part.start..part.end], free_head, key) {
            self.free_head = key;
            self.filled -= 1;
        }
    }

    // The task in a slot.
    pub fn get(&self, key: usize) -> Option<F>
        ensures { result ≡ task_at (slots_of self.now) key }
    {
        let part = self.part;
        get_in(&self.slots[part.start..part.end], key)
    }

    // Polls the task in a slot, in place. The pair is the task's own.
    pub fn poll_at<P: PollFn<F>>(
        &mut self,
        key: usize,
        post: &[u64],
    ) -> Option<(bool, Poll<P::Answer>)>
        ensures pair { result ≡ pair_of P.PollFn.acts post.now (task_at (slots_of self.old) key) }
        ensures after { held self.new ≡ with_table (held self.old) (polled_at P.PollFn.acts post.now (held self.old).table key) }
    {
        let part = self.part;
        poll_in::<F, P>(&mut self.slots[part.start..part.end], key, post)
    }

    // How many tasks there are.
    pub fn len(&self) -> usize
        ensures { result ≡ tasks_in (slots_of self.now) }
    {
        self.filled
    }

    // How many there can be.
    pub fn capacity(&self) -> usize
        ensures { result ≡ length (slots_of self.now) }
    {
        self.part.len()
    }

    // Gives the memory back as it is.
    pub fn take_apart(self) -> &'a mut [Slot<F>]
        ensures { result.now ≡ self.entry.slots.now }
    {
        let PinSlotMap {
            slots,
            part: _,
            free_head: _,
            filled: _,
        } = self;
        slots
    }
}

impl<'a, F: Flip + Copy> PinSlotMap<'a, F> {
    ghost use Rattle.slots.specs.Flips.{table_flipped};
    ghost use Rattle.slots.specs.Held.{held, with_table};

    // Flips the index of every task.
    pub fn flip(&mut self)
        ensures { held self.new ≡ with_table (held self.old) (table_flipped F.Flip.flipped (held self.old).table) }
    {
        let part = self.part;
        flip_each(&mut self.slots[part.start..part.end]);
    }
}
