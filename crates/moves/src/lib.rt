// The calls that move the gauge, on the saved bytes: 14 is tested where they are, each part that moves is loaded, moved and stored at its place.
#![tactic(auto)]

mod direction;
pub mod key;
pub mod rest;
pub mod window;
pub mod write;
