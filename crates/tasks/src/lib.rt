// What a set or a merge holds, and the words in which it answers.
#![tactic(auto)]

pub mod countdown;
pub mod either;
pub mod fault;
pub mod flip;
pub mod future;
pub mod letter;
pub mod mailbag;
pub mod order_wrapper;
pub mod poll;
pub mod poll_fn;
pub mod post;
pub mod stream;
pub mod ticker;
pub mod ticket;
