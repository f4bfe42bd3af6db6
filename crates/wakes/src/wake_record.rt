// The caller supplies one for each slot, in memory that may hold anything: the flag has to lie there, beside the link, for
// the list to find in one step whether a slot waits.
#[derive(Clone, Copy, PartialEq, Debug, Default)]
pub struct WakeRecord {
    // whether the slot waits in the queue
    pub queued: bool,
    // the slot that waits behind it
    pub next: usize,
}
