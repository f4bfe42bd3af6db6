// The slot table: every task that a set holds lies in a slot of the caller's memory.
#![tactic(auto)]

pub mod slot;
pub mod slot_map;
pub mod table;
