// What the gauge counts beside its charge.
#![tactic(auto)]

pub mod counters;
pub mod cycles;
