ghost use Rattle.ordered.specs.LinedQueue.{line_in, Even, Ends, Wraps, Placed};

use crate::ordered_memory::OrderedMemory;
use crate::ordered_queue::{OrderedQueue, Parts};
use parking::index_heap::IndexHeap;
use sets::futures_unordered_bounded::FuturesUnorderedBounded;
use slots::slot::Slot;
use tasks::fault::{Fault, Refused};
use tasks::future::Future;
use tasks::order_wrapper::OrderWrapper;
use tasks::poll::Polled;
use wakes::wake_record::WakeRecord;
use wakes::waker::Waker;

// A set of futures whose outputs are yielded in its order, in memory of the caller's: one slot and one wake record for each
// task, and a place of parking for each element. What it holds is one run of indices.
pub struct FuturesOrderedBounded<'a, F: Future> {
    queue: OrderedQueue<FuturesUnorderedBounded<'a, OrderWrapper<F>>, IndexHeap<'a, F::Output>>,
    ghost even: { Even (line_in queue) },
    ghost ends: { Ends (line_in queue) },
    ghost wraps: { Wraps (line_in queue) },
    ghost placed: { Placed (line_in queue) },
}

impl<'a, F: Future + Copy> FuturesOrderedBounded<'a, F>
where
    F::Output: Copy,
{
    ghost use Rattle.std.specs.Prelude.{◌≡◌};
    ghost use Rattle.ordered.specs.FuturesOrdered.{ordered_of, pushing, MemoryOf, TakenApart};
    ghost use Rattle.ordered.specs.Ordered.{back, front};
    ghost use Rattle.ordered.specs.Deques.{DequeLaw, IndexLaw};
    ghost use Rattle.ordered.specs.OrderedSet.{made, step, elements, indices, queued, len as len_of};
    ghost use Rattle.runs.specs.Promises.{Promises};
    ghost use Rattle.runs.specs.Wakers.{WakerLaws};
    ghost use Rattle.runs.specs.Calls.{push as Push, poll as PollCall, hand as Hand, clone as CloneCall, wake as Wake, wake_by_ref as WakeByRef, drop as DropCall, may_end as MayEnd, ask};
    ghost use Rattle.sets.specs.Bounded.{how_many, how_many_can_be};

    // An empty set of that name. Its capacity is the lesser of the memories of slots and records, and at most 65,536; it has
    // a place for each place of the parking memory, and at most 65,536.
    pub fn new(
        name: u32,
        slots: &'a mut [Slot<OrderWrapper<F>>],
        records: &'a mut [WakeRecord],
        parking: &'a mut [Option<OrderWrapper<F::Output>>],
    ) -> FuturesOrderedBounded<'a, F>
        ensures fresh { ordered_of result ≡ made name slots.old records.old parking.old }
        ensures promises { Promises (step F.Future.acts) (ordered_of result) (λ p. F.Ticketed.bearing p.task) F.Output.Ticketed.bearing elements how_many }
        ensures wakers { WakerLaws (step F.Future.acts) (ordered_of result) queued how_many }
        ensures deque { DequeLaw (step F.Future.acts) (ordered_of result) F.Ticketed.bearing F.Output.Ticketed.bearing }
        ensures in_a_run { IndexLaw (step F.Future.acts) (ordered_of result) indices (len_of F.Future.acts) (λ s. s.incoming) (λ s. s.outgoing) }
    {
        FuturesOrderedBounded::empty(name, slots, records, parking)
    }

    fn empty(
        name: u32,
        slots: &'a mut [Slot<OrderWrapper<F>>],
        records: &'a mut [WakeRecord],
        parking: &'a mut [Option<OrderWrapper<F::Output>>],
    ) -> FuturesOrderedBounded<'a, F>
        ensures { ordered_of result ≡ made name slots.old records.old parking.old }
    {
        let tasks = FuturesUnorderedBounded::new(name, slots, records);
        let outputs = IndexHeap::new(parking);
        FuturesOrderedBounded {
            queue: OrderedQueue::new(tasks, outputs),
        }
    }

    // Puts a future at the back of the queue and answers its address, or hands it back.
    pub fn push_back(&mut self, fut: F) -> Result<usize, Refused<F>>
        ensures answer { result ≡ (step F.Future.acts (ordered_of self.old) (Push (pushing self.old back fut))).1 }
        ensures after { ordered_of self.new ≡ (step F.Future.acts (ordered_of self.old) (Push (pushing self.old back fut))).0 }
    {
        self.queue.push_back(fut)
    }

    // Puts a future at the front of the queue and answers its address, or hands it back.
    pub fn push_front(&mut self, fut: F) -> Result<usize, Refused<F>>
        ensures answer { result ≡ (step F.Future.acts (ordered_of self.old) (Push (pushing self.old front fut))).1 }
        ensures after { ordered_of self.new ≡ (step F.Future.acts (ordered_of self.old) (Push (pushing self.old front fut))).0 }
    {
        self.queue.push_front(fut)
    }

    // Yields the output that is next in turn, if it is there; polls the futures that were woken for it.
    pub fn poll(&mut self, post: &[u64]) -> Polled<Option<F::Output>>
        ensures answer { result ≡ (step F.Future.acts (ordered_of self.old) (PollCall post.now)).1 }
        ensures after { ordered_of self.new ≡ (step F.Future.acts (ordered_of self.old) (PollCall post.now)).0 }
    {
        self.queue.poll(post)
    }

    // How many elements the set holds: futures, and outputs that wait for their turn.
    pub fn len(&self) -> usize
        ensures { result ≡ (step F.Future.acts (ordered_of self.now) (ask how_many)).1 }
    {
        self.queue.len()
    }

    // How many tasks it can hold.
    pub fn capacity(&self) -> usize
        ensures { result ≡ (step F.Future.acts (ordered_of self.now) (ask how_many_can_be)).1 }
    {
        self.queue.tasks().capacity()
    }

    // Hands out the token of an occupied slot.
    pub fn hand(&mut self, address: usize) -> Result<Waker, Refused<usize>>
        ensures answer { result ≡ (step F.Future.acts (ordered_of self.old) (Hand address)).1 }
        ensures after { ordered_of self.new ≡ (step F.Future.acts (ordered_of self.old) (Hand address)).0 }
    {
        self.queue.hand(address)
    }

    // Hands out another token like the one that is lent.
    pub fn clone(&mut self, token: &Waker) -> Result<Waker, Fault>
        ensures answer { result ≡ (step F.Future.acts (ordered_of self.old) (CloneCall token.now)).1 }
        ensures after { ordered_of self.new ≡ (step F.Future.acts (ordered_of self.old) (CloneCall token.now)).0 }
    {
        self.queue.clone(token)
    }

    // Wakes the token's slot and spends the token; answers the notices, 0 or 1.
    pub fn wake(&mut self, token: Waker) -> Result<u32, Refused<Waker>>
        ensures answer { result ≡ (step F.Future.acts (ordered_of self.old) (Wake token)).1 }
        ensures after { ordered_of self.new ≡ (step F.Future.acts (ordered_of self.old) (Wake token)).0 }
    {
        self.queue.wake(token)
    }

    // Wakes the token's slot and spends nothing; answers the notices, 0 or 1.
    pub fn wake_by_ref(&mut self, token: &Waker) -> Result<u32, Fault>
        ensures answer { result ≡ (step F.Future.acts (ordered_of self.old) (WakeByRef token.now)).1 }
        ensures after { ordered_of self.new ≡ (step F.Future.acts (ordered_of self.old) (WakeByRef token.now)).0 }
    {
        self.queue.wake_by_ref(token)
    }

    // Spends the token and wakes nothing.
    pub fn drop(&mut self, token: Waker) -> Result<(), Refused<Waker>>
        ensures answer { result ≡ (step F.Future.acts (ordered_of self.old) (DropCall token)).1 }
        ensures after { ordered_of self.new ≡ (step F.Future.acts (ordered_of self.old) (DropCall token)).0 }
    {
        self.queue.drop(token)
    }

    // Whether the set may be taken apart: no token is out.
    pub fn may_end(&self) -> Result<(), Fault>
        ensures { result ≡ (step F.Future.acts (ordered_of self.now) MayEnd).1 }
    {
        self.queue.may_end()
    }

    // Gives the memory back, or the set itself while tokens are out. Both arms move the set, so no `map_err` will do.
    pub fn take_apart(
        self,
    ) -> Result<OrderedMemory<'a, F, F::Output>, Refused<FuturesOrderedBounded<'a, F>>>
        ensures { TakenApart (ordered_of self.entry) result }
    {
        match self.may_end() {
            Ok(()) => Ok(self.abandon()),
            Err(fault) => Err(Refused { fault, input: self }),
        }
    }

    // Gives the memory back with tokens out. What is left of them will be refused by any other set.
    pub fn abandon(self) -> OrderedMemory<'a, F, F::Output>
        ensures { MemoryOf (ordered_of self.entry) result }
    {
        let FuturesOrderedBounded { queue } = self;
        let Parts { tasks, outputs } = queue.take_apart();
        OrderedMemory {
            tasks: tasks.abandon(),
            parking: outputs.into_memory(),
        }
    }
}
