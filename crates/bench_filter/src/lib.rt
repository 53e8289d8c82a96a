// A part of the bench program's input in, as much of its output as there is room for out.
#![tactic(auto)]

pub mod filter;
