// What the filter makes of a part of the input, written to an output. Where the output's bytes are known it is proved which are written;
// of standard output no contract can know them.
ghost use Rattle.std.specs.Prelude.{List, ◌++◌, ℕ, OnOk, take};
ghost use Rattle.std.specs.Io.KnownBytes.{Appends};
ghost use Rattle.bench.specs.Print as Spec;
ghost use Rattle.bench.specs.Written.{Written};
ghost use Rattle.bench_feed.specs.Feed.{last_output};
ghost use Rattle.bench_feed.specs.Input.{printed_at};
ghost use Rattle.bench_output.specs.Output.{text_of};

use bench_feed::state::Bench;
use bench_filter::filter::{Filtered, filter_part, finish};
use std::io::Write;
use std::{fmt, io};

// How many bytes are read at once, and made at once.
pub const BUFFER: usize = 4096;

// Which stream failed, and why.
#[derive(Clone, Copy)]
pub enum Failure {
    Input(io::Error),
    Output(io::Error),
}

// As the program ends with it: by hand, since `main` prints an error by Debug, and these are the words it has printed.
impl fmt::Debug for Failure {
    fn fmt<W: fmt::Write>(&self, f: &mut fmt::Formatter<W>) -> fmt::Result {
        match self {
            Failure::Input(error) => write!(f, "standard input: {error}"),
            Failure::Output(error) => write!(f, "standard output: {error}"),
        }
    }
}

// The program after some bytes, how many they were, and whether their output was written.
#[derive(Clone, Copy)]
pub struct Printed {
    pub bench: Bench,
    pub used: usize,
    pub written: Result<(), Failure>,
}

// The program after a part of the input, and whether there is to be another, where no read and no write failed.
#[derive(Clone, Copy)]
pub struct Progress {
    pub bench: Bench,
    pub more: Result<bool, Failure>,
}

fn write<W: Write>(output: &mut W, bytes: &[u8]) -> Result<(), Failure>
    ensures { OnOk result (Appends (W.contents output.old) (W.contents output.new) bytes.now) }
{
    output.write_all(bytes).map_err(Failure::Output)
}

// Prints what one pass of the filter makes of a part of the input.
fn print_some<W: Write>(output: &mut W, bench: Bench, part: &[u8]) -> Printed
    ensures fed { Spec.IsPrinted bench part.now result }
    ensures written { OnOk result.written
        (Appends (W.contents output.old) (W.contents output.new) (printed_at bench (take result.used part.now))) }
{
    let mut out = [0u8; BUFFER];
    let Filtered { bench, used, made } = filter_part(bench, part, &mut out);
    let written = write(output, &out[..made]);
    Printed {
        bench,
        used,
        written,
    }
}

// Prints all that a part of the input gives. No `for`: how much a pass takes is known when it is done.
pub fn print_part<W: Write>(output: &mut W, bench: Bench, part: &[u8]) -> Progress
    ensures fed { Spec.IsProgress bench part.now result }
    ensures written { OnOk result.more ((rest : List ℕ)
        → Written (W.contents output.old) (W.contents output.new) bench (part.now ++ rest) result rest) }
{
    let mut after = bench;
    let mut rest = part;
    while !rest.is_empty() {
        let printed = print_some(output, after, rest);
        after = printed.bench;
        if let Err(failure) = printed.written {
            return Progress {
                bench: after,
                more: Err(failure),
            };
        }
        rest = &rest[printed.used..];
    }
    Progress {
        bench: after,
        more: Ok(!after.is_ended()),
    }
}

// Prints what the end of the input gives.
pub fn print_end<W: Write>(output: &mut W, bench: Bench) -> Result<(), Failure>
    ensures { OnOk result (Appends (W.contents output.old) (W.contents output.new) (text_of (last_output bench))) }
{
    let mut out = [0u8; BUFFER];
    let made = finish(bench, &mut out);
    write(output, &out[..made])
}
