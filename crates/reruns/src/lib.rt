// Recorded calls, carried out on the library, and their answers as a recording has them.
#![tactic(auto)]

pub mod answer;
pub mod bounded;
pub mod in_order;
pub mod recorded;
