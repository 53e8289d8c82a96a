// Both round trips of the saved bytes.
#![tactic(auto)]

pub mod round_trip;
