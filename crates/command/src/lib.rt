// Which command a key at CTRL obeys, or why it is refused.
#![tactic(auto)]

pub mod command;
