// A line of the bench program's list: the window that it asks for, and what is printed for it.
#![tactic(auto)]

pub mod answer;
mod shown;
