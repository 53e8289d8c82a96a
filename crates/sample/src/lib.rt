// The sample of a window: its numbers and their ranges, the counted current, the last sample of a gauge.
#![tactic(auto)]

pub mod current;
pub mod limits;
pub mod range;
pub mod sample;
