// The wake list: which slots wait to be polled, and whether the parent wants to be told.
#![tactic(auto)]

pub mod queue;
pub mod wake_record;
pub mod waker;
pub mod waker_list;
