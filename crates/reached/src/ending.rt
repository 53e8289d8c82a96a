// What the end-of-discharge voltages make of a window (step 4).
ghost use Rattle.std.specs.Prelude.{◌≡◌};
ghost use Rattle.configuration.specs.Terms.{terms_of};
ghost use Rattle.sample.specs.Current.{discharge_current};
ghost use Rattle.reached.specs.Ending as Spec;

use configuration::configuration::{cold_threshold, e1, edvf, s0};
use configuration::settings::Settings;
use sample::sample::Sample;

#[derive(Clone, Copy, Debug, PartialEq, Eq)]
pub enum Ending {
    // no discharge, or the voltage above E1
    Above,
    // at or below EDVF
    Edvf,
    // at or below E1; no run, or one that does not qualify
    Edv1,
    // at or below E1, and the run qualifies
    Qualified,
}

// "t ≥ 4 × (273 + TOFF) and IAV > 2 × S0".
#[tactic(auto, unfolding(crate::specs::Ending::may_teach))]
fn may_teach(settings: Settings, discharge: u16, temperature: u16) -> bool
    ensures { result ≡ Spec.may_teach (terms_of settings) discharge temperature }
{
    if temperature < cold_threshold(settings) {
        return false;
    }
    2 * (s0(settings) as u32) < discharge as u32
}

#[tactic(auto, unfolding(crate::specs::Ending::ending_of))]
pub fn ending_of(settings: Settings, vdq: bool, sample: Sample) -> Ending
    ensures { result ≡ Spec.ending_of (terms_of settings) vdq (discharge_current sample.current) sample.voltage sample.temperature }
{
    let discharge = sample.current.discharge_current();
    if discharge == 0 {
        return Ending::Above;
    }
    // E1 lies above EDVF, so most windows are done with here.
    if e1(settings) < sample.voltage {
        return Ending::Above;
    }
    if sample.voltage <= edvf(settings) {
        return Ending::Edvf;
    }
    if !vdq {
        return Ending::Edv1;
    }
    if may_teach(settings, discharge, sample.temperature) {
        return Ending::Qualified;
    }
    Ending::Edv1
}
