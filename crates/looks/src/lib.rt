// The calls that look, on the saved bytes: what each register shows, the map, the whole map at once, a read into the host's reply, and a preview.
#![tactic(auto)]

mod map;
pub mod preview_key;
pub mod reading;
mod times;
mod values;
mod whole;
