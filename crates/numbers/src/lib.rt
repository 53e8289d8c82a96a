// Numbers: as bytes, low byte first, and taken apart by sign. Knows nothing of a gauge; every crate above stands on its laws.
#![tactic(auto)]

pub mod front;
pub mod little;
pub mod signed;
