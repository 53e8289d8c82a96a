// The bytes that the host writes: MODE and AR.
#![tactic(auto)]

pub mod host;
