// The text of an output, put into a lent buffer.
ghost use Rattle.std.specs.Prelude.{◌≡◌, ◌+◌, ◌≤◌, length};
ghost use Rattle.std.proofs.lemmas.List.Edits.{sets};
ghost use Rattle.bench_output.specs.Output as Spec;
ghost use Rattle.lines.specs.Put.{place_after, put_at};

use crate::output::Output;
use lines::put::{has_room, put_number, put_text};

// The room that an output is given. No text is longer.
pub const ROOM: usize = 64;

fn put_registers(nac: u16, lmd: u16, rsoc: u8, flags: u8, out: &mut [u8], at: usize) -> usize
    requires { at + Spec.room ≤ length out.old }
    ensures place { result ≡ at + length (Spec.registers_text nac lmd rsoc flags) }
    ensures bytes { out.new ≡ sets out.old at (Spec.registers_text nac lmd rsoc flags) }
    ensures within { result ≤ at + Spec.room }
{
    let second = put_number(u32::from(nac), b' ', out, at);
    let third = put_number(u32::from(lmd), b' ', out, second);
    let fourth = put_number(u32::from(rsoc), b' ', out, third);
    put_number(u32::from(flags), b'\n', out, fourth)
}

fn put_refused(number: u32, out: &mut [u8], at: usize) -> usize
    requires { at + Spec.room ≤ length out.old }
    ensures place { result ≡ at + length (Spec.refused_text number) }
    ensures bytes { out.new ≡ sets out.old at (Spec.refused_text number) }
    ensures within { result ≤ at + Spec.room }
{
    let second = put_text(b"refused ", out, at);
    put_number(number, b'\n', out, second)
}

// The text of an output where there is room.
#[tactic(auto, unfolding(crate::specs::Output::text_of, lines::specs::Put::put_at, lines::specs::Put::place_after))]
fn put_case(output: Option<Output>, out: &mut [u8], at: usize) -> usize
    requires { at + Spec.room ≤ length out.old }
    ensures place { result ≡ at + length (Spec.text_of output) }
    ensures bytes { out.new ≡ sets out.old at (Spec.text_of output) }
    ensures within { result ≤ at + Spec.room }
{
    match output {
        None => at,
        Some(Output::Heading) => put_text(b"nac lmd rsoc flags\n", out, at),
        Some(Output::Names) => put_text(b"names\n", out, at),
        Some(Output::Unread) => put_text(b"unread\n", out, at),
        Some(Output::Refused(number)) => put_refused(number, out, at),
        Some(
            Output::Registers {
                nac,
                lmd,
                rsoc,
                flags,
            },
        ) => put_registers(nac, lmd, rsoc, flags, out, at),
    }
}

// The text of an output, and the place behind it. Where there is no room nothing is put.
#[tactic(auto, unfolding(lines::specs::Put::put_at, lines::specs::Put::place_after))]
pub fn put_output(output: Option<Output>, out: &mut [u8], at: usize) -> usize
    ensures place { result ≡ place_after Spec.room (Spec.text_of output) out.old at }
    ensures bytes { out.new ≡ put_at Spec.room (Spec.text_of output) out.old at }
    ensures within { at ≤ length out.old → result ≤ length out.old }
{
    if !has_room(out, at, ROOM) {
        return at;
    }
    put_case(output, out, at)
}
