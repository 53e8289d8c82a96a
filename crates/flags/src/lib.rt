// The flags CI, EDV1 and EDVF, and the FLAGS byte.
#![tactic(auto)]

pub mod byte;
pub mod flags;
