// The bench program: a list of windows from standard input, what the bench pack shows after each to standard output. The proved
// filter does the work; this file and print.rt only read and write.
#![tactic(auto)]

mod print;

ghost use Rattle.std.specs.Prelude.{◌≡◌, List, [], ◌++◌, ℕ, IfOk, IfSome, IsOk, OnOk, Some, take, true};
ghost use Rattle.std.specs.Io.KnownBytes.{Appends};
ghost use Rattle.bench.specs.Print as Spec;
ghost use Rattle.bench.specs.Written.{Written};
ghost use Rattle.bench_feed.specs.Printed.{printed};

use bench_feed::state::Bench;
use print::{BUFFER, Failure, Progress, print_end, print_part};
use std::io;
use std::io::{Read, Write};

// Prints what a read gives: so many bytes at the start of the buffer, 0 at the end of the input, or an error where it failed.
fn print_read<W: Write>(
    output: &mut W,
    bench: Bench,
    got: io::Result<usize>,
    part: &[u8],
) -> Progress
    ensures fed { Spec.IsRead bench got part.now result }
    ensures written { OnOk result.more ((rest : List ℕ) → (Spec.count got ≡ 0 → rest ≡ [])
        → Written (W.contents output.old) (W.contents output.new) bench (take (Spec.count got) part.now ++ rest) result rest) }
    ensures read { OnOk result.more (IsOk got) }
{
    match got {
        Err(error) => Progress {
            bench,
            more: Err(Failure::Input(error)),
        },
        Ok(0) => Progress {
            bench,
            more: print_end(output, bench).and(Ok(false)),
        },
        Ok(n) => print_part(output, bench, &part[..n.min(part.len())]),
    }
}

// Reads once and prints what that gives.
fn turn<R: Read, W: Write>(input: &mut R, output: &mut W, bench: Bench) -> Progress
    ensures fed { Spec.IsTurn bench result }
    ensures written { OnOk result.more (IfSome (R.remaining input.old) (λ all. (rest : List ℕ)
        × (R.remaining input.new ≡ Some rest)
        × Written (W.contents output.old) (W.contents output.new) bench all result rest)) }
{
    let mut part = [0u8; BUFFER];
    let got = input.read(&mut part);
    print_read(output, bench, got, &part)
}

// Prints what the whole input gives, and hands back whether it came to the end. A proved loop has to end and an input need not, so the turns are
// counted by a number that no run uses up.
pub fn run<R: Read, W: Write>(input: &mut R, output: &mut W) -> Result<bool, Failure>
    ensures { IfOk result (λ whole. whole ≡ true → IfSome (R.remaining input.old)
        (λ all. Appends (W.contents output.old) (W.contents output.new) (printed all))) }
{
    let mut bench = Bench::start();
    for _ in 0..u64::MAX {
        let progress = turn(input, output, bench);
        if !progress.more? {
            return Ok(true);
        }
        bench = progress.bench;
    }
    Ok(false)
}

fn main(rt: HostRuntime) -> Result<(), Failure> {
    run(&mut rt.stdin(), &mut rt.stdout())?;
    Ok(())
}
