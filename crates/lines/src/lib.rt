// Text lines of numbers: three whole numbers read from a line byte by byte, and a number written in decimal.
#![tactic(auto)]

pub mod line;
pub mod put;
pub mod word;
