// Sets of futures that complete in any order.
#![tactic(auto)]

pub mod futures_unordered_bounded;
pub mod group;
pub mod memory;
pub mod turn;
