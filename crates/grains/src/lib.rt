// Charge in whole grains: the sums, the leak of a window and of a rest, a run and its drain, and what a qualified run teaches.
#![tactic(auto)]

pub mod grains;
pub mod leak;
pub mod learning;
pub mod rest;
pub mod run;
