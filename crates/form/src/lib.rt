// The forms of the saved gauge: their numbers, their fields and the places of these.
#![tactic(auto)]

pub mod form;
pub mod signed;
