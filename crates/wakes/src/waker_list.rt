ghost use Rattle.std.specs.Prelude.{◌≤◌, length};
ghost use Rattle.std.specs.List.{between};
ghost use Rattle.wakes.specs.Queue.{Queued};

use crate::queue::{Queue, fresh_in};
use crate::wake_record::WakeRecord;
use lists::part::Part;

// The wake records of a part of the caller's memory, the queue that is kept in them, and the registration of the parent.
pub struct WakerList<'a> {
    records: &'a mut [WakeRecord],
    part: Part,
    queue: Queue,
    registered: bool,
    ghost starts: { part.start ≤ part.end },
    ghost within: { part.end ≤ length records.now },
    ghost queue_kept: { Queued (between part.start part.end records.now) queue },
}

impl<'a> WakerList<'a> {
    ghost use Rattle.std.specs.Prelude.{◌≡◌, ◌-◌, ◌<◌, false, not, take, drop, IfSome, if◌then◌else◌};
    ghost use Rattle.lists.specs.Queues.{first};
    ghost use Rattle.lists.specs.Walks.{member};
    ghost use Rattle.wakes.specs.Wakes.{fresh, pushed, woken, notice, popped, listening, held, with_wakes, records_of};

    // A fresh one in that part of the memory: nothing waits, and nobody is registered.
    pub fn new(records: &'a mut [WakeRecord], part: Part) -> WakerList<'a>
        requires { (part.start ≤ part.end) × (part.end ≤ length records.old) }
        ensures { held result ≡ record { before = take part.start records.old; places = part.end - part.start; wakes = fresh; beyond = drop part.end records.old } }
    {
        fresh_in(&mut records[part.start..part.end]);
        WakerList {
            records,
            part,
            queue: Queue::default(),
            registered: false,
        }
    }

    // A slot joins the queue without a notice, unless it waits already; tells whether it joined.
    pub fn push(&mut self, slot: usize) -> bool
        requires { slot < length (records_of self.old) }
        ensures joined { result ≡ not (member slot (held self.old).wakes.waiting) }
        ensures after { held self.new ≡ with_wakes (held self.old) (pushed (held self.old).wakes slot) }
    {
        let part = self.part;
        self.queue
            .enqueue(&mut self.records[part.start..part.end], slot)
    }

    // Registers the parent, which the next wake that newly enqueues gives a notice.
    pub fn register(&mut self)
        ensures { held self.new ≡ with_wakes (held self.old) (listening (held self.old).wakes) }
    {
        self.registered = true;
    }

    // Wakes a slot; tells how many notices the parent was given, 0 or 1.
    pub fn wake(&mut self, slot: usize) -> u32
        requires { slot < length (records_of self.old) }
        ensures notices { result ≡ notice (held self.old).wakes slot }
        ensures after { held self.new ≡ with_wakes (held self.old) (woken (held self.old).wakes slot) }
    {
        if self.push(slot) {
            return self.notify();
        }
        0
    }

    // Gives a registered parent its notice, and clears the registration.
    pub fn notify(&mut self) -> u32
        ensures notices { result ≡ (if self.old.registered then 1 else 0) }
        ensures after { held self.new ≡ with_wakes (held self.old) (record { waiting = (held self.old).wakes.waiting; registered = false }) }
    {
        if self.registered {
            self.registered = false;
            1
        } else {
            0
        }
    }

    // The first slot leaves the queue.
    pub fn pop(&mut self) -> Option<usize>
        ensures slot { result ≡ first (held self.old).wakes.waiting }
        ensures after { held self.new ≡ with_wakes (held self.old) (popped (held self.old).wakes) }
        ensures within { IfSome result (λ i. i < length (records_of self.old)) }
    {
        let part = self.part;
        self.queue.dequeue(&mut self.records[part.start..part.end])
    }

    // Gives the memory back as it is.
    pub fn take_apart(self) -> &'a mut [WakeRecord]
        ensures { result.now ≡ self.entry.records.now }
    {
        let WakerList {
            records,
            part: _,
            queue: _,
            registered: _,
        } = self;
        records
    }
}
