// Numbers put among as many bytes as the newest form has.
ghost use Rattle.std.specs.Prelude.{◌≡◌, ◌+◌, ◌≤◌};
ghost use Rattle.std.proofs.lemmas.List.Edits.{sets};
ghost use Rattle.numbers.specs.Little.{little};
ghost use Rattle.form.specs.Form.{saved_length};

use form::form::LENGTH;
use numbers::little::Little;

pub(crate) type Saved = [u8; LENGTH as usize];

// A number from its place on, low byte first; the other bytes keep.
pub(crate) fn put<const N: usize, T: Little<N>>(saved: &mut Saved, place: u16, value: T)
    requires { place + N ≤ saved_length }
    ensures { saved.new ≡ sets saved.old place (little N (T.number value)) }
{
    let at = place as usize;
    saved[at..at + N].copy_from_slice(&value.to_little());
}
