// The standby current.
#![tactic(auto)]

pub mod standby;
