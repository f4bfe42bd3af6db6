ghost use Rattle.std.specs.Prelude.{◌≡◌, ◌<◌, cond, length};
ghost use Rattle.sets.specs.Group.{woken_if};
ghost use Rattle.slots.specs.Held.{slots_of};
ghost use Rattle.wakes.specs.Wakes.{notice, held as wakes_held, with_wakes, records_of};

use crate::memory::Memory;
use crate::turn::{Found, Turn};
use lists::part::Part;
use slots::slot::Slot;
use slots::slot_map::PinSlotMap;
use tasks::flip::Flip;
use tasks::future::Future;
use tasks::poll::{Poll, Polled};
use tasks::poll_fn::{ByFuture, PollFn};
use wakes::wake_record::WakeRecord;
use wakes::waker_list::WakerList;

// A poll takes at most that many turns.
const MAX: u32 = 61;

// A group of tasks on its part of the caller's memory, with one wake record for each slot.
pub struct TaskGroup<'a, F> {
    tasks: PinSlotMap<'a, F>,
    shared: WakerList<'a>,
    ghost paired: { length (slots_of tasks) ≡ length (records_of shared) },
}

// A task that woke itself counts as woken.
fn self_wake<'a>(shared: &mut WakerList<'a>, slot: usize, woken: bool) -> u32
    requires { slot < length (records_of shared.old) }
    ensures notices { result ≡ cond «woken» (notice (wakes_held shared.old).wakes slot) 0 }
    ensures after { wakes_held shared.new ≡ with_wakes (wakes_held shared.old) (woken_if «woken» (wakes_held shared.old).wakes slot) }
{
    if woken { shared.wake(slot) } else { 0 }
}

impl<'a, F: Copy> TaskGroup<'a, F> {
    ghost use Rattle.std.specs.Prelude.{◌-◌, ◌≤◌, ◌++◌, if◌then◌else◌, Ok, Err};
    ghost use Rattle.sets.specs.Ground.{ground_of, fresh_ground, group_in, with_group, GivenBack};
    ghost use Rattle.sets.specs.Group.{joined, found, polling, turn as turn_of, woken_at};
    ghost use Rattle.slots.specs.Table.{full, occupied_at, len as tasks_in};

    // A fresh group in that part of both memories. The caller has them as two slices, so they come as two.
    pub fn new(
        slots: &'a mut [Slot<F>],
        records: &'a mut [WakeRecord],
        part: Part,
    ) -> TaskGroup<'a, F>
        requires { (part.start ≤ part.end) × ((part.end ≤ length slots.old) × (part.end ≤ length records.old)) }
        ensures { ground_of result ≡ fresh_ground slots.old records.old part.start part.end }
    {
        let tasks = PinSlotMap::new(slots, part);
        let shared = WakerList::new(records, part);
        TaskGroup { tasks, shared }
    }

    // Puts a task into the free head and enqueues it, or hands it back where no slot is vacant.
    pub fn try_push(&mut self, task: F) -> Result<usize, F>
        ensures answer { result ≡ (if full (group_in (ground_of self.old)).table.slots then Err task else Ok (group_in (ground_of self.old)).table.head) }
        ensures after { ground_of self.new ≡ with_group (ground_of self.old) (joined (group_in (ground_of self.old)) task) }
    {
        let i = self.tasks.insert(task)?;
        self.shared.push(i);
        Ok(i)
    }

    // How many tasks there are.
    pub fn len(&self) -> usize
        ensures { result ≡ tasks_in (group_in (ground_of self.now)).table.slots }
    {
        self.tasks.len()
    }

    // How many there can be.
    pub fn capacity(&self) -> usize
        ensures { result ≡ length (group_in (ground_of self.now)).table.slots }
    {
        self.tasks.capacity()
    }

    // Whether a task lies in that slot.
    pub fn is_occupied(&self, slot: usize) -> bool
        ensures { result ≡ occupied_at (group_in (ground_of self.now)).table.slots slot }
    {
        self.tasks.get(slot).is_some()
    }

    // Wakes a slot; tells how many notices the parent was given, 0 or 1.
    pub fn wake(&mut self, slot: usize) -> u32
        requires { slot < length (group_in (ground_of self.old)).table.slots }
        ensures notices { result ≡ notice (group_in (ground_of self.old)).wakes slot }
        ensures after { ground_of self.new ≡ with_group (ground_of self.old) (woken_at (group_in (ground_of self.old)) slot) }
    {
        self.shared.wake(slot)
    }

    // Gives the memory back as it is.
    pub fn take_apart(self) -> Memory<'a, F>
        ensures slots { result.slots.now ≡ self.entry.tasks.slots.now }
        ensures records { result.records.now ≡ self.entry.shared.records.now }
        ensures all_slots { result.slots.now ≡ (ground_of self.entry).tasks.before ++ ((ground_of self.entry).tasks.table.slots ++ (ground_of self.entry).tasks.beyond) }
        ensures all_records { GivenBack (ground_of self.entry).shared result.records.now }
    {
        let TaskGroup { tasks, shared } = self;
        let slots = tasks.take_apart();
        let records = shared.take_apart();
        Memory { slots, records }
    }

    // Takes one slot from the queue, if one waits, and polls its task.
    fn turn<P: PollFn<F>>(&mut self, post: &[u64]) -> Option<Turn<P::Answer>>
        ensures answer { result ≡ (turn_of P.PollFn.acts post.now (group_in (ground_of self.old))).0 }
        ensures after { ground_of self.new ≡ with_group (ground_of self.old) (turn_of P.PollFn.acts post.now (group_in (ground_of self.old))).1 }
    {
        let i = self.shared.pop()?;
        match self.tasks.poll_at::<P>(i, post) {
            None => Some(Turn {
                notices: 0,
                found: None,
            }),
            Some((woken, poll)) => {
                let notices = self_wake(&mut self.shared, i, woken);
                let found = match poll {
                    Poll::Ready(answer) => Some(Found { slot: i, answer }),
                    Poll::Pending => None,
                };
                Some(Turn { notices, found })
            }
        }
    }

    // Takes turns until a task gives an answer, nothing waits, or so many were taken.
    fn take_turns<P: PollFn<F>>(
        &mut self,
        most: u32,
        post: &[u64],
    ) -> Polled<Option<Found<P::Answer>>>
        requires { most ≤ 61 }
        ensures answer { result ≡ (polling P.PollFn.acts post.now most 0 0 (group_in (ground_of self.old))).answer }
        ensures after { ground_of self.new ≡ with_group (ground_of self.old) (polling P.PollFn.acts post.now most 0 0 (group_in (ground_of self.old))).group }
    {
        let mut notices = 0;
        for turns in 0..most {
            let Some(turn) = self.turn::<P>(post) else {
                return Polled {
                    poll: Poll::Pending,
                    notices,
                    turns,
                };
            };
            notices += turn.notices;
            if let Some(found) = turn.found {
                return Polled {
                    poll: Poll::Ready(Some(found)),
                    notices,
                    turns: turns + 1,
                };
            }
        }
        Polled {
            poll: Poll::Pending,
            notices: notices + 1,
            turns: most,
        }
    }

    // Polls the tasks that wait until one gives an answer, and leaves that task in its slot.
    pub fn poll_inner_no_remove<P: PollFn<F>>(
        &mut self,
        post: &[u64],
    ) -> Polled<Option<Found<P::Answer>>>
        ensures answer { result ≡ (found P.PollFn.acts post.now (group_in (ground_of self.old))).answer }
        ensures after { ground_of self.new ≡ with_group (ground_of self.old) (found P.PollFn.acts post.now (group_in (ground_of self.old))).group }
    {
        if self.tasks.len() == 0 {
            return Polled {
                poll: Poll::Ready(None),
                notices: 0,
                turns: 0,
            };
        }
        self.shared.register();
        self.take_turns::<P>(MAX, post)
    }
}

impl<'a, F: Flip + Copy> TaskGroup<'a, F> {
    ghost use Rattle.sets.specs.Ground.{ground_of, group_in, with_group};
    ghost use Rattle.sets.specs.Group.{group_flipped};

    // Flips the index of every task.
    pub fn flip(&mut self)
        ensures { ground_of self.new ≡ with_group (ground_of self.old) (group_flipped F.Flip.flipped (group_in (ground_of self.old))) }
    {
        self.tasks.flip();
    }
}

impl<'a, F: Future + Copy> TaskGroup<'a, F> {
    ghost use Rattle.sets.specs.Ground.{ground_of, group_in, with_group};
    ghost use Rattle.sets.specs.Group.{polled};

    // Takes turns until a future is ready, and vacates its slot. A closure that vacates would hide that from the proof.
    pub fn poll_inner(&mut self, post: &[u64]) -> Polled<Option<F::Output>>
        ensures answer { result ≡ (polled F.Future.acts post.now (group_in (ground_of self.old))).answer }
        ensures after { ground_of self.new ≡ with_group (ground_of self.old) (polled F.Future.acts post.now (group_in (ground_of self.old))).group }
    {
        let Polled {
            poll,
            notices,
            turns,
        } = self.poll_inner_no_remove::<ByFuture>(post);
        let poll = match poll {
            Poll::Ready(Some(Found { slot, answer })) => {
                self.tasks.remove(slot);
                Poll::Ready(Some(answer))
            }
            Poll::Ready(None) => Poll::Ready(None),
            Poll::Pending => Poll::Pending,
        };
        Polled {
            poll,
            notices,
            turns,
        }
    }
}
