// What the ten configuration bytes mean.
#![tactic(auto)]

pub mod accepted;
pub mod configuration;
pub mod settings;
