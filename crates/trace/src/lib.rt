// A run's trace: the deliveries of a cycle as 64-bit records, records as bytes, and numbers read from bytes.
#![tactic(auto)]

pub mod numbers;
pub mod records;
