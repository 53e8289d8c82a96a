// Both round trips, as contracts: a saved gauge reads back as itself, and what is read back saves as the same bytes.
ghost use Rattle.std.specs.Prelude.{◌≡◌};
ghost use Rattle.form.specs.Form.{newest};
ghost use Rattle.load.specs.Load.{answer_in};
ghost use Rattle.refusals.specs.Refusal.{Answers, number_of};
ghost use Rattle.round_trip.specs.RoundTrip as Spec;

use every_form::every_form::load;
use form::form::LENGTH;
use gauge::state::Gauge;
use load::load::load_newest;
use refusals::Refusal;
use saved::save::save;

// Saved and loaded again: the same gauge, or 14 for one that is rejected.
pub fn reloaded(gauge: Gauge) -> Result<Gauge, Refusal>
    ensures { Answers result (Spec.reloaded_answer gauge).number (Spec.reloaded_answer gauge).gauge }
{
    let mut bytes = [0; LENGTH as usize];
    save(gauge, &mut bytes)?;
    load(&bytes)
}

// Bytes of the newest form loaded and saved again: the same bytes. Others are left as they are.
pub fn resaved(bytes: &mut [u8]) -> Result<(), Refusal>
    ensures number { number_of result ≡ (answer_in newest bytes.old).number }
    ensures bytes { bytes.new ≡ bytes.old }
{
    let gauge = load_newest(bytes)?;
    save(gauge, bytes)
}
