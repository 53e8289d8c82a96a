// What the bench program prints at the end of a line, and its text put into a lent buffer. Stands on the crate lines.
#![tactic(auto)]

pub mod output;
pub mod put;
