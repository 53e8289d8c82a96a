// Loading a gauge from bytes of the newest form.
ghost use Rattle.std.specs.Prelude.{◌≡◌};
ghost use Rattle.form.specs.Form.{newest};
ghost use Rattle.gauge.specs.Accepted.{accepted};
ghost use Rattle.load.specs.Load as Spec;
ghost use Rattle.refusals.specs.Refusal.{Answers, number_of};

use crate::parts::{
    loaded_charge, loaded_counters, loaded_flags, loaded_host, loaded_sample, loaded_settings,
    loaded_standby,
};
use configuration::configuration::dmf;
use flags::byte::flags_fit;
use form::form::{AT_CURRENT, AT_FLAGS, AT_FORM, FORM, LENGTH};
use form::signed::current_of;
use gauge::state::Gauge;
use numbers::little::{byte_at, two_at};
use refusals::Refusal;
use standby::standby::standby_accepted;

// Bytes of a length and a number, with no flags but those that a gauge value has room for.
pub fn in_form(bytes: &[u8], number: u8, length: u16) -> bool
    ensures { result ≡ Spec.fits_as number length newest bytes.now }
{
    bytes.len() == length as usize
        && byte_at(bytes, AT_FORM as usize) == number
        && flags_fit(
            byte_at(bytes, AT_FLAGS as usize),
            current_of(two_at(bytes, AT_CURRENT)).charging,
        )
}

// The newest form, as far as a gauge value does not show it.
#[tactic(auto, unfolding(crate::specs::Load::form_fits))]
pub fn form_fits(bytes: &[u8]) -> bool
    ensures { result ≡ Spec.form_fits newest bytes.now }
{
    in_form(bytes, FORM, LENGTH)
}

// What the bytes hold, accepted or not; bytes of another length are read as so many zeros.
pub fn decoded(bytes: &[u8]) -> Gauge
    ensures { result ≡ Spec.decoded_gauge bytes.now }
{
    let settings = loaded_settings(bytes);
    let charge = loaded_charge(bytes);
    let sample = loaded_sample(bytes);
    let standby = loaded_standby(bytes);
    let flags = loaded_flags(bytes);
    let host = loaded_host(bytes);
    let counters = loaded_counters(bytes);
    Gauge {
        settings,
        charge,
        sample,
        standby,
        flags,
        host,
        counters,
    }
}

// What 14 asks of the gauge value that the bytes hold, tested where they are.
#[tactic(auto, unfolding(gauge::specs::Accepted::accepted))]
pub fn gauge_accepted(bytes: &[u8]) -> bool
    ensures { result ≡ accepted (Spec.decoded_gauge bytes.now) }
{
    let settings = loaded_settings(bytes);
    settings.accepted()
        && loaded_charge(bytes).accepted()
        && standby_accepted(settings, loaded_standby(bytes))
        && loaded_sample(bytes).accepted(dmf(settings))
        && loaded_counters(bytes).accepted()
}

// What every call on saved bytes tests first: 14.
#[tactic(auto, using(crate::proofs::LoadLaws::unfit_answer, crate::proofs::LoadLaws::unaccepted_answer, crate::proofs::LoadLaws::passed_answer))]
#[inline(always)]
pub fn tested(bytes: &[u8]) -> Result<(), Refusal>
    ensures { number_of result ≡ (Spec.answer_in newest bytes.now).number }
{
    if form_fits(bytes) && gauge_accepted(bytes) {
        return Ok(());
    }
    Err(Refusal::Rejected)
}

// The gauge that bytes of the newest form hold, or 14: it is read once.
#[tactic(auto, using(crate::proofs::LoadLaws::unfit_answer, crate::proofs::LoadLaws::unaccepted_answer, crate::proofs::LoadLaws::passed_answer, crate::proofs::LoadLaws::gauge_loaded))]
pub fn load_newest(bytes: &[u8]) -> Result<Gauge, Refusal>
    ensures { Answers result (Spec.answer_in newest bytes.now).number (Spec.answer_in newest bytes.now).gauge }
{
    if !form_fits(bytes) {
        return Err(Refusal::Rejected);
    }
    let gauge = decoded(bytes);
    if !gauge.accepted() {
        return Err(Refusal::Rejected);
    }
    Ok(gauge)
}
