// The gauge: opening, windows, rests and host writes on gauge values. Stands on the crates below by their contracts alone.
#![tactic(auto)]

pub mod accepted;
pub mod calls;
mod obey;
pub mod opening;
mod rest;
pub mod state;
pub mod window;
