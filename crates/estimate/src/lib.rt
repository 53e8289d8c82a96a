// "Charge from a rested cell": an estimate of the charge from a voltage, which moves nothing.
#![tactic(auto)]

mod distance;
pub mod estimate;
