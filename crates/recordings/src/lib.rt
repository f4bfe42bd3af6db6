// Recordings of runs, as text: what each line says.
#![tactic(auto)]

pub mod call;
pub mod line;
pub mod make;
pub mod reason;
mod words;
