// The saved gauge: its bytes in the newest form, and each of its parts among them.
#![tactic(auto)]

pub mod parts;
mod place;
pub mod save;
