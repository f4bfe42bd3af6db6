// Sets of futures that complete in the order of their pushes.
#![tactic(auto)]

pub mod bounded_tasks;
pub mod futures_ordered_bounded;
pub mod ordered_memory;
pub mod ordered_queue;
pub mod round;
pub mod stands;
pub mod task_set;
