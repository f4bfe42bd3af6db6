// Parking: finished outputs that wait for their turn.
#![tactic(auto)]

pub mod heap;
pub mod heap_in_order;
pub mod index_heap;
pub mod pairs;
pub mod parking;
pub mod rank;
pub mod rank_heap;
#[cfg(test)]
mod rank_heap_tests;
