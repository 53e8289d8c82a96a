// The parts of a gauge, each put where bytes of the newest form hold it: the other bytes keep, and so do all of bytes of another length. The length is
// tested once for a part, so that no store tests it again.
#![tactic(auto, unfolding(crate::specs::Put::charge_put, crate::specs::Put::standby_put, crate::specs::Put::sample_put, crate::specs::Put::host_put, crate::specs::Put::flags_put, crate::specs::Put::counters_put))]

ghost use Rattle.std.specs.Prelude.{◌≡◌};
ghost use Rattle.saved.specs.Put as Spec;

use crate::place::put;
use charge::charge::Charge;
use counters::counters::Counters;
use flags::byte::flags_byte;
use flags::flags::Flags;
use form::form::{
    AT_AR, AT_CURRENT, AT_CYCLE_DRAIN, AT_CYCT, AT_DCR, AT_FLAGS, AT_HELD, AT_LMD, AT_MODE,
    AT_RESTS, AT_STANDBY, AT_TEMPERATURE, AT_VOLTAGE,
};
use form::signed::signed_pair;
use host::host::Host;
use sample::sample::Sample;

pub fn put_charge(bytes: &mut [u8], charge: Charge)
    ensures { bytes.new ≡ Spec.charge_put charge bytes.old }
{
    let Some(saved) = bytes.as_mut_array() else {
        return;
    };
    put(saved, AT_HELD, charge.held);
    put(saved, AT_DCR, charge.run.dcr);
    put(saved, AT_LMD, charge.lmd);
}

// SI, in sixteenths.
pub fn put_standby(bytes: &mut [u8], standby: u16)
    ensures { bytes.new ≡ Spec.standby_put standby bytes.old }
{
    let Some(saved) = bytes.as_mut_array() else {
        return;
    };
    put(saved, AT_STANDBY, standby);
}

pub fn put_sample(bytes: &mut [u8], sample: Sample)
    ensures { bytes.new ≡ Spec.sample_put sample bytes.old }
{
    let Some(saved) = bytes.as_mut_array() else {
        return;
    };
    let current = sample.current;
    put(saved, AT_CURRENT, signed_pair(current));
    put(saved, AT_VOLTAGE, sample.voltage);
    put(saved, AT_TEMPERATURE, sample.temperature);
}

pub fn put_host(bytes: &mut [u8], host: Host)
    ensures { bytes.new ≡ Spec.host_put host bytes.old }
{
    let Some(saved) = bytes.as_mut_array() else {
        return;
    };
    put(saved, AT_AR, host.ar);
    put(saved, AT_MODE, host.mode);
}

// FLAGS: CHGS is the direction of c, VDQ belongs to the run.
pub fn put_flags(bytes: &mut [u8], chgs: bool, vdq: bool, flags: Flags)
    ensures { bytes.new ≡ Spec.flags_put chgs vdq flags bytes.old }
{
    let Some(saved) = bytes.as_mut_array() else {
        return;
    };
    put(saved, AT_FLAGS, flags_byte(chgs, vdq, flags));
}

pub fn put_counters(bytes: &mut [u8], counters: Counters)
    ensures { bytes.new ≡ Spec.counters_put counters bytes.old }
{
    let Some(saved) = bytes.as_mut_array() else {
        return;
    };
    put(saved, AT_RESTS, counters.rests);
    put(saved, AT_CYCT, counters.cycles.cyct);
    put(saved, AT_CYCLE_DRAIN, counters.cycles.drain);
}
