// A slot is occupied by a task, or vacant with the number of the next free slot. No heap may be used, so the free slots are
// chained by number in the caller's memory; a number past the table ends the chain, by the table's rule.
#[derive(Clone, Copy, PartialEq, Debug)]
pub enum Slot<F> {
    Occupied(F),
    NextFree(usize),
}
