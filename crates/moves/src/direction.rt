// A window on the saved bytes, by the direction of its counted current: an idle one reaches nothing, charging may fill, discharging may end. Every window
// counts cycles, idle and charging ones too, since after WRTLMD the drain may hold a whole LMD × G.
ghost use Rattle.std.specs.Prelude.{true, ◌≡◌};
ghost use Rattle.form.specs.Form.{newest};
ghost use Rattle.gauge.specs.Window.{window};
ghost use Rattle.load.specs.Load.{decoded_gauge, form_fits};
ghost use Rattle.sample.specs.Current.{no_current};
ghost use Rattle.saved.specs.Put.{counters_put};
ghost use Rattle.saved.specs.Save.{saved_bytes};
ghost use Rattle.counters.specs.Counters.{counters_moved};
ghost use Rattle.moves.specs.Direction as Spec;

use load::parts::{
    loaded_charge, loaded_counters, loaded_flags, loaded_host, loaded_settings, loaded_standby,
};
use reached::charge_after::summed;
use reached::ending::ending_of;
use reached::full::is_full;
use reached::reached::{charge_ended, filled_if, flags_ended};
use sample::current::Current;
use sample::sample::Sample;
use saved::parts::{put_charge, put_counters, put_flags, put_host, put_sample, put_standby};
use standby::standby::averaged;

// "one more cycle for every whole LMD × G", by the LMD before the window.
fn count(saved: &mut [u8], lmd: u16, current: Current)
    ensures { saved.new ≡ counters_put (counters_moved lmd current (decoded_gauge saved.old).counters) saved.old }
{
    let counters = loaded_counters(saved).moved(lmd, current);
    put_counters(saved, counters);
}

fn idle(saved: &mut [u8], sample: &Sample)
    requires { form_fits newest saved.old ≡ true }
    ensures { saved.new ≡ saved_bytes (window no_current sample.now.voltage sample.now.temperature (decoded_gauge saved.old)) }
{
    let settings = loaded_settings(saved);
    let before = loaded_charge(saved);
    let flags = loaded_flags(saved);
    let zero = Current::none();
    let sample = Sample {
        current: zero,
        ..*sample
    };
    count(saved, before.lmd, zero);
    let charge = summed(before, settings, sample);
    put_charge(saved, charge);
    put_flags(saved, false, charge.run.vdq, flags);
    put_sample(saved, sample);
}

fn charged(saved: &mut [u8], sample: &Sample)
    requires { form_fits newest saved.old ≡ true }
    ensures { saved.new
        ≡ saved_bytes (window (Spec.charging sample.now.current.magnitude) sample.now.voltage sample.now.temperature (decoded_gauge saved.old)) }
{
    let settings = loaded_settings(saved);
    let before = loaded_charge(saved);
    let flags = loaded_flags(saved).cleared_if(true);
    let host = loaded_host(saved);
    let current = Current {
        charging: true,
        ..sample.current
    };
    let sample = Sample { current, ..*sample };
    count(saved, before.lmd, current);
    let sum = summed(before, settings, sample);
    let full = is_full(settings, sample, sum);
    let charge = filled_if(sum, full);
    put_charge(saved, charge);
    put_host(saved, host.full_if(full));
    put_flags(saved, true, charge.run.vdq, flags);
    put_sample(saved, sample);
}

fn discharged(saved: &mut [u8], sample: &Sample)
    requires { form_fits newest saved.old ≡ true }
    ensures { saved.new
        ≡ saved_bytes (window (Spec.discharging sample.now.current.magnitude) sample.now.voltage sample.now.temperature (decoded_gauge saved.old)) }
{
    let settings = loaded_settings(saved);
    let before = loaded_charge(saved);
    let standby = loaded_standby(saved);
    let current = Current {
        charging: false,
        ..sample.current
    };
    let sample = Sample { current, ..*sample };
    count(saved, before.lmd, current);
    let sum = summed(before, settings, sample);
    let ending = ending_of(settings, sum.run.vdq, sample);
    let charge = charge_ended(sum, ending);
    let flags = flags_ended(loaded_flags(saved), ending);
    put_charge(saved, charge);
    put_flags(saved, false, charge.run.vdq, flags);
    put_standby(saved, averaged(settings, standby, current.magnitude));
    put_sample(saved, sample);
}

pub(crate) fn stepped(saved: &mut [u8], sample: &Sample)
    requires { (form_fits newest saved.old ≡ true) × (sample.now.current.magnitude ≡ 0 → sample.now.current ≡ no_current) }
    ensures { saved.new ≡ saved_bytes (window sample.now.current sample.now.voltage sample.now.temperature (decoded_gauge saved.old)) }
{
    if sample.current.magnitude == 0 {
        idle(saved, sample);
        return;
    }
    if sample.current.charging {
        charged(saved, sample);
        return;
    }
    discharged(saved, sample);
}
