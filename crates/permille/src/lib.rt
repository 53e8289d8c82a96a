// The permille of the capacity that a rested cell holds, by its voltage.
#![tactic(auto)]

pub mod claim;
mod entries;
pub mod table;
