// Parts of a memory, and definitions and lemmas over lists and numbers that the layers share.
#![tactic(auto)]

pub mod part;
