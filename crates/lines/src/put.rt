// Text put into a lent buffer: a number in decimal, or bytes as they are.
ghost use Rattle.std.specs.Prelude.{false, nat_le, ◌∷◌, [], ◌++◌, ◌≡◌, ℕ, ◌+◌, ◌≤◌, length};
ghost use Rattle.lines.specs.Decimal.{decimal};
ghost use Rattle.lines.specs.Number.{number, ranged};
ghost use Rattle.lines.specs.Put as Spec;

// Is there room for so many bytes from a place on?
pub fn has_room(out: &[u8], at: usize, room: usize) -> bool
    ensures { result ≡ nat_le (at + room) (length out.now) }
{
    at <= out.len() && room <= out.len() - at
}

// How many decimal digits a number has.
#[tactic(auto, using(crate::proofs::DecimalLaws::width_is))]
fn width(number: u32) -> usize
    ensures value { result ≡ length (decimal number) }
    ensures most { result ≤ 10 }
{
    number.max(1).ilog10() as usize + 1
}

// The digits of a number, its last one first.
#[tactic(auto, using(crate::proofs::DecimalLaws::all_of_them))]
fn put_digits(number: u32, slots: &mut [u8])
    requires { length slots.old ≡ length (decimal number) }
    ensures { slots.new ≡ decimal number }
{
    let mut rest = number;
    for i in (0..slots.len()).rev() {
        slots[i] = b'0' + (rest % 10) as u8;
        rest /= 10;
    }
}

// A number in decimal and the byte after it, and the place behind them. A number has at most ten digits; where there is no
// room for eleven bytes nothing is put.
#[tactic(auto, using(crate::proofs::PutLaws::mid_stored, crate::proofs::PutLaws::stored_behind), unfolding(crate::specs::Put::put_at, crate::specs::Put::place_after))]
pub fn put_number(number: u32, after: u8, out: &mut [u8], at: usize) -> usize
    ensures place { result ≡ Spec.place_after 11 (decimal number ++ (after ∷ [])) out.old at }
    ensures bytes { out.new ≡ Spec.put_at 11 (decimal number ++ (after ∷ [])) out.old at }
{
    if !has_room(out, at, 11) {
        return at;
    }
    let end = at + width(number);
    put_digits(number, &mut out[at..end]);
    out[end] = after;
    end + 1
}

// Bytes as they are, and the place behind them. Where there is no room for them nothing is put.
#[tactic(auto, using(crate::proofs::PutLaws::mid_stored), unfolding(crate::specs::Put::put_at, crate::specs::Put::place_after))]
pub fn put_text(text: &[u8], out: &mut [u8], at: usize) -> usize
    ensures place { result ≡ Spec.place_after (length text.now) text.now out.old at }
    ensures bytes { out.new ≡ Spec.put_at (length text.now) text.now out.old at }
{
    if !has_room(out, at, text.len()) {
        return at;
    }
    let end = at + text.len();
    out[at..end].copy_from_slice(text);
    end
}

// What is written in decimal is read as the number that was written. The contract is the theorem, and the body has nothing to do.
#[tactic(auto, using(crate::proofs::RoundTripLaws::written_read))]
pub fn written_is_read()
    ensures { (n : ℕ) → number (decimal n) ≡ ranged false n }
{}
