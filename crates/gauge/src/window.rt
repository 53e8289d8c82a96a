// "A window": its numbers as handed in, and its five steps.
ghost use Rattle.std.specs.Prelude.{◌≡◌};
ghost use Rattle.gauge.specs.Calls.{sample_refusal};
ghost use Rattle.gauge.specs.Window as Spec;
ghost use Rattle.refusals.specs.Refusal.{Answers};

use crate::state::Gauge;
use reached::charge_after::summed;
use reached::ending::ending_of;
use reached::full::is_full;
use reached::reached::{charge_ended, filled_if, flags_ended};
use refusals::Refusal;
use sample::range::{read_current, read_temperature, read_voltage};
use sample::sample::Sample;
use standby::standby::averaged;

// Current, voltage and temperature as handed in. Refuses 3, 4, 5.
pub fn measured(a: i32, v: i32, t: i32) -> Result<Sample, Refusal>
    ensures { Answers result (sample_refusal a v t) (Spec.measured a v t) }
{
    Ok(Sample {
        current: read_current(a)?,
        voltage: read_voltage(v)?,
        temperature: read_temperature(t)?,
    })
}

impl Gauge {
    // What the window reaches is decided from the sum; then each part is moved by it.
    pub(crate) fn stepped(self, sample: Sample) -> Gauge
        ensures { result ≡ Spec.window sample.current sample.voltage sample.temperature self }
    {
        let settings = self.settings;
        let current = sample.current;
        let summed = summed(self.charge, settings, sample);
        let full = is_full(settings, sample, summed);
        let ending = ending_of(settings, summed.run.vdq, sample);
        Gauge {
            charge: charge_ended(filled_if(summed, full), ending),
            sample,
            standby: averaged(settings, self.standby, current.discharge_current()),
            flags: flags_ended(self.flags.cleared_if(current.charging), ending),
            host: self.host.full_if(full),
            counters: self.counters.moved(self.charge.lmd, current),
            ..self
        }
    }
}
