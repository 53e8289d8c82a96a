// What a key at CTRL would do, without doing it: definitions, and the claim on what is shown.
#![tactic(auto)]

pub mod claim;
