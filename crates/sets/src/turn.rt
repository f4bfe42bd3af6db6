// What a turn that took a slot from the queue gave: how many notices the parent got, and the answer of the slot's task, if
// it gave one.
#[derive(Clone, Copy)]
pub struct Turn<A> {
    pub notices: u32,
    pub found: Option<Found<A>>,
}

// An answer, and the slot of the task that gave it.
#[derive(Clone, Copy)]
pub struct Found<A> {
    pub slot: usize,
    pub answer: A,
}
