// What the bench program keeps between two bytes of its input.
use bench_output::output::Output;
use gauge::state::Gauge;
use lines::line::Reading;

// Where in its input the program is.
#[derive(Clone, Copy, Debug, PartialEq, Eq)]
pub enum Place {
    // in the first line: so many bytes of it, all as the names line has them, or none where it is another line
    First(Option<u8>),
    // in a line of the list, of which a byte has begun it or none
    Listed { begun: bool, reading: Reading },
    // after another first line
    Ended,
}

#[derive(Clone, Copy, Debug, PartialEq, Eq)]
pub struct Bench {
    pub gauge: Gauge,
    pub place: Place,
}

// The program after a byte, and what it prints at that byte.
#[derive(Clone, Copy, Debug, PartialEq, Eq)]
pub struct Step {
    pub bench: Bench,
    pub output: Option<Output>,
}

pub const NEWLINE: u8 = 10;
