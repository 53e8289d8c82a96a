// Loading a gauge, or a part of it, from bytes of the newest form.
#![tactic(auto)]

pub mod load;
pub mod parts;
