// What demand 3 speaks of: the charge held, the learned capacity and the run, and what each rule makes of them.
#![tactic(auto)]

pub mod charge;
pub mod obeyed;
pub mod rest;
pub mod step;
