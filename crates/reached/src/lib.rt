// What a window reaches, decided before anything is done about it, and what that makes of the charge and the flags.
#![tactic(auto)]

pub mod charge_after;
pub mod ending;
pub mod full;
pub mod reached;
