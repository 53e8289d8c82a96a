// The bench program as a state that takes its input byte by byte, in constant memory. Stands on the crates lines, bench_output and
// bench_window.
#![tactic(auto)]

pub mod feed;
mod first;
mod list;
pub mod state;
