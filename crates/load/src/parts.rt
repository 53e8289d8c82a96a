// The parts of the gauge that bytes of the newest form hold, accepted or not, each by itself: what a call does not ask for is not read. Bytes of
// another length are read as so many zeros; the length is tested once for a part, so that no read of a field tests it again.
#![tactic(auto, unfolding(crate::specs::Load::of_length, crate::specs::Load::decoded_gauge, crate::specs::Load::read_in, crate::specs::Fields::gauge_from, crate::specs::Fields::charge_from, crate::specs::Fields::sample_from, crate::specs::Fields::host_from, crate::specs::Fields::counters_from))]

ghost use Rattle.std.specs.Prelude.{◌≡◌, replicate};
ghost use Rattle.form.specs.Form.{saved_length};
ghost use Rattle.load.specs.Load as Spec;

use charge::charge::Charge;
use configuration::settings::Settings;
use counters::counters::Counters;
use counters::cycles::Cycles;
use flags::byte::{flags_of, vdq_of};
use flags::flags::Flags;
use form::form::{
    AT_AR, AT_CONFIGURATION, AT_CURRENT, AT_CYCLE_DRAIN, AT_CYCT, AT_DCR, AT_FLAGS, AT_HELD,
    AT_LMD, AT_MODE, AT_RESTS, AT_STANDBY, AT_TEMPERATURE, AT_VOLTAGE, LENGTH,
};
use form::signed::current_of;
use grains::run::Run;
use host::host::Host;
use numbers::little::{bytes_at, number_at};
use sample::sample::Sample;

// Bytes of another length are read as so many zeros.
fn saved_in(bytes: &[u8]) -> &[u8; LENGTH as usize]
    ensures { result.now ≡ Spec.of_length bytes.now (replicate saved_length 0) }
{
    bytes.as_array().unwrap_or(&[0; LENGTH as usize])
}

pub fn loaded_settings(bytes: &[u8]) -> Settings
    ensures { result ≡ (Spec.decoded_gauge bytes.now).settings }
{
    Settings::opened(bytes_at(saved_in(bytes), AT_CONFIGURATION))
}

pub fn loaded_charge(bytes: &[u8]) -> Charge
    ensures { result ≡ (Spec.decoded_gauge bytes.now).charge }
{
    let saved = saved_in(bytes);
    let held = number_at(saved, AT_HELD);
    let dcr = number_at(saved, AT_DCR);
    let lmd = number_at(saved, AT_LMD);
    let vdq = vdq_of(saved[AT_FLAGS as usize]);
    let run = Run { vdq, dcr };
    Charge { held, lmd, run }
}

pub fn loaded_sample(bytes: &[u8]) -> Sample
    ensures { result ≡ (Spec.decoded_gauge bytes.now).sample }
{
    let saved = saved_in(bytes);
    let current = current_of(number_at(saved, AT_CURRENT));
    let voltage = number_at(saved, AT_VOLTAGE);
    let temperature = number_at(saved, AT_TEMPERATURE);
    Sample {
        current,
        voltage,
        temperature,
    }
}

// SI, in sixteenths.
pub fn loaded_standby(bytes: &[u8]) -> u16
    ensures { result ≡ (Spec.decoded_gauge bytes.now).standby }
{
    number_at(saved_in(bytes), AT_STANDBY)
}

pub fn loaded_flags(bytes: &[u8]) -> Flags
    ensures { result ≡ (Spec.decoded_gauge bytes.now).flags }
{
    flags_of(saved_in(bytes)[AT_FLAGS as usize])
}

pub fn loaded_host(bytes: &[u8]) -> Host
    ensures { result ≡ (Spec.decoded_gauge bytes.now).host }
{
    let saved = saved_in(bytes);
    let mode = saved[AT_MODE as usize];
    let ar = number_at(saved, AT_AR);
    Host { mode, ar }
}

pub fn loaded_counters(bytes: &[u8]) -> Counters
    ensures { result ≡ (Spec.decoded_gauge bytes.now).counters }
{
    let saved = saved_in(bytes);
    let rests = number_at(saved, AT_RESTS);
    let cyct = number_at(saved, AT_CYCT);
    let drain = number_at(saved, AT_CYCLE_DRAIN);
    let cycles = Cycles { cyct, drain };
    Counters { rests, cycles }
}
