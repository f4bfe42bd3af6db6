// Workloads for a benchmark. Each runs whole, on a set that it makes in memory of its own, and answers a checksum.
#![tactic(auto)]

pub mod exports;
mod workloads;
