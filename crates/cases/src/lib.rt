// Worked runs: computed from the definitions, and tried on the code.
#![tactic(auto)]

pub mod bounded;
#[cfg(test)]
mod bounded_tests;
pub mod in_order;
#[cfg(test)]
mod in_order_tests;
