ghost use Rattle.std.specs.Prelude.{◌≡◌, ℕ, ◌<◌, true, false, not, length, IfSome, slice_index, slice_index_or, slice_set};
ghost use Rattle.lists.specs.Queues.{enqueued, first, rest};
ghost use Rattle.lists.specs.Walks.{member};
ghost use Rattle.wakes.specs.Queue.{flags, links, waiting_in, Queued};

use crate::wake_record::WakeRecord;

// The ends of a queue whose links lie in the wake records, and how many slots wait in it: no heap may be used, so the
// queue is threaded through the caller's memory. The ends mean something while any waits; an Option of them beside the count
// would say that twice.
#[derive(Clone, Copy, PartialEq, Debug, Default)]
pub struct Queue {
    pub head: usize,
    pub tail: usize,
    pub waiting: usize,
}

impl Queue {
    // A slot joins the end of the queue, unless it waits already; tells whether it joined.
    pub fn enqueue(&mut self, records: &mut [WakeRecord], slot: usize) -> bool
        requires { (slot < length records.old) × (Queued records.old self.old) }
        ensures joined { result ≡ not (member slot (waiting_in records.old self.old)) }
        ensures waiting { waiting_in records.new self.new ≡ enqueued (waiting_in records.old self.old) slot }
        ensures kept { Queued records.new self.new }
    {
        if records[slot].queued {
            return false;
        }
        records[slot].queued = true;
        if self.waiting == 0 {
            self.head = slot;
        } else {
            records[self.tail].next = slot;
        }
        self.tail = slot;
        self.waiting += 1;
        true
    }

    // The first slot leaves the queue, and its flag is cleared.
    pub fn dequeue(&mut self, records: &mut [WakeRecord]) -> Option<usize>
        requires { Queued records.old self.old }
        ensures slot { result ≡ first (waiting_in records.old self.old) }
        ensures waiting { waiting_in records.new self.new ≡ rest (waiting_in records.old self.old) }
        ensures kept { Queued records.new self.new }
        ensures within { IfSome result (λ i. i < length records.old) }
    {
        if self.waiting == 0 {
            return None;
        }
        let slot = self.head;
        records[slot].queued = false;
        self.head = records[slot].next;
        self.waiting -= 1;
        Some(slot)
    }
}

// Nothing waits: every flag is cleared.
pub fn fresh_in(records: &mut [WakeRecord])
    ensures { (k : ℕ) → slice_index_or (flags records.new) k false ≡ false }
{
    let empty = WakeRecord::default();
    records.fill(empty);
}
