// One cycle of a run on lent arrays.
#![tactic(auto)]

pub mod cycle;
