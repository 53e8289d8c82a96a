// The calls from C on the saved bytes.
#![tactic(auto)]

pub mod calls;
mod keep;
