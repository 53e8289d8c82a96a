// Saving a gauge: its fields are put among the bytes one after the other, in the order of the form.
ghost use Rattle.std.specs.Prelude.{◌≡◌, length};
ghost use Rattle.refusals.specs.Refusal.{number_of};
ghost use Rattle.saved.specs.Put as Put;
ghost use Rattle.saved.specs.Save as Spec;

use crate::parts::{put_charge, put_counters, put_flags, put_host, put_sample, put_standby};
use crate::place::Saved;
use configuration::settings::Settings;
use form::form::{AT_CONFIGURATION, AT_FORM, AT_HELD, FORM, LENGTH};
use gauge::state::Gauge;
use refusals::Refusal;

// The form's number and the configuration, over zeros.
fn headed(settings: Settings) -> Saved
    ensures { result ≡ Put.headed settings }
{
    let mut saved = [0; LENGTH as usize];
    saved[AT_FORM as usize] = FORM;
    saved[AT_CONFIGURATION as usize..AT_HELD as usize].copy_from_slice(&settings.bytes);
    saved
}

// The bytes of a gauge, accepted or not.
#[tactic(auto, using(crate::proofs::SaveLaws::encoded_is))]
fn encoded(gauge: Gauge) -> Saved
    ensures { result ≡ Spec.saved_bytes gauge }
{
    let chgs = gauge.sample.current.charging;
    let vdq = gauge.charge.run.vdq;
    let mut saved = headed(gauge.settings);
    put_charge(&mut saved, gauge.charge);
    put_standby(&mut saved, gauge.standby);
    put_sample(&mut saved, gauge.sample);
    put_host(&mut saved, gauge.host);
    put_flags(&mut saved, chgs, vdq, gauge.flags);
    put_counters(&mut saved, gauge.counters);
    saved
}

// The bytes of a gauge in a buffer of their length, or 13. Nothing is asked of the gauge.
#[tactic(auto, unfolding(crate::specs::Save::put_after))]
pub fn put(gauge: Gauge, buffer: &mut [u8]) -> Result<(), Refusal>
    ensures number { number_of result ≡ Spec.length_refusal (length buffer.old) }
    ensures bytes { buffer.new ≡ Spec.put_after gauge buffer.old }
{
    let Some(saved) = buffer.as_mut_array() else {
        return Err(Refusal::BufferLength);
    };
    *saved = encoded(gauge);
    Ok(())
}

// 14, 13, or the bytes in the buffer.
#[tactic(auto, unfolding(crate::specs::Save::save_refusal, crate::specs::Save::buffer_after, crate::specs::Save::put_after))]
pub fn save(gauge: Gauge, buffer: &mut [u8]) -> Result<(), Refusal>
    ensures number { number_of result ≡ Spec.save_refusal gauge (length buffer.old) }
    ensures bytes { buffer.new ≡ Spec.buffer_after gauge buffer.old }
{
    gauge.tested()?;
    put(gauge, buffer)
}
