// A host write, on the saved bytes.
ghost use Rattle.std.specs.Prelude.{◌≡◌, ◌<◌};
ghost use Rattle.form.specs.Form.{saved_length};
ghost use Rattle.gauge.specs.Calls.{write_answer};
ghost use Rattle.refusals.specs.Refusal.{number_of};
ghost use Rattle.saved.specs.Call as Spec;
ghost use Rattle.moves.specs.Place.{host_place};

use crate::key::press;
use form::form::{AT_AR, AT_MODE};
use gauge::calls::{CTRL, LAST_WRITABLE};
use load::load::tested;
use refusals::Refusal;

// Where the saved bytes hold the byte that a host write stores: MODE at 1, AR low at 2 or AR high at 3.
#[tactic(auto, unfolding(crate::specs::Place::host_place))]
fn host_place(address: u32) -> usize
    ensures value { result ≡ host_place address }
    ensures range { result < saved_length }
{
    match address {
        1 => AT_MODE as usize,
        2 => AT_AR as usize,
        _ => AT_AR as usize + 1,
    }
}

// 14, 7 to 11, or the write done: a byte that is stored as given is put where the bytes hold it, a key at CTRL obeys its command.
pub fn write(saved: &mut [u8], address: u32, value: u8) -> Result<(), Refusal>
    ensures number { number_of result ≡ Spec.call_number saved.old (λ g. write_answer g address value) }
    ensures bytes { saved.new ≡ Spec.call_bytes saved.old (λ g. write_answer g address value) }
{
    tested(saved)?;
    if address == CTRL {
        return press(saved, value);
    }
    if LAST_WRITABLE < address {
        return Err(Refusal::NotWritable);
    }
    let place = host_place(address);
    saved[place] = value;
    Ok(())
}
