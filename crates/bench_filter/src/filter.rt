// The filter: a part of the input in, as much of the output as there is room for out.
ghost use Rattle.std.specs.Prelude.{◌≡◌, ◌≤◌, length, take};
ghost use Rattle.bench_filter.specs.Filter as Spec;
ghost use Rattle.bench_feed.specs.Feed.{last_output};
ghost use Rattle.bench_output.specs.Output.{room, text_of};
ghost use Rattle.lines.specs.Put.{place_after, put_at};

use bench_feed::state::Bench;
use bench_output::put::{ROOM, put_output};
use lines::put::has_room;

// The program afterwards, how many bytes of the part it took, and how many it made.
#[derive(Clone, Copy, Debug, PartialEq, Eq)]
pub struct Filtered {
    pub bench: Bench,
    pub used: usize,
    pub made: usize,
}

// Takes bytes of the part as long as there is room for another output, and makes of them what they print.
pub fn filter_part(bench: Bench, part: &[u8], out: &mut [u8]) -> Filtered
    ensures { Spec.IsFiltered bench part.now out.old result out.new }
{
    let mut after = bench;
    let mut made = 0;
    for (used, &byte) in part.iter().enumerate() {
        if !has_room(out, made, ROOM) {
            return Filtered {
                bench: after,
                used,
                made,
            };
        }
        let step = after.fed(byte);
        made = put_output(step.output, out, made);
        after = step.bench;
    }
    Filtered {
        bench: after,
        used: part.len(),
        made,
    }
}

// What is printed at the end of the input, and how many bytes it is. Where there is no room nothing is put.
pub fn finish(bench: Bench, out: &mut [u8]) -> usize
    ensures place { result ≡ place_after room (text_of (last_output bench)) out.old 0 }
    ensures bytes { out.new ≡ put_at room (text_of (last_output bench)) out.old 0 }
    ensures within { (result ≤ length out.new) × (result ≡ length (take result out.new)) }
{
    put_output(bench.last_output(), out, 0)
}
