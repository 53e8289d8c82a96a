// The test for full (step 3).
ghost use Rattle.std.specs.Prelude.{◌≡◌};
ghost use Rattle.configuration.specs.Terms.{terms_of};
ghost use Rattle.reached.specs.Full as Spec;

use charge::charge::Charge;
use configuration::configuration::taper;
use configuration::settings::Settings;
use grains::grains::grains_of_counts;
use sample::sample::Sample;

// "v ≥ 4,100".
const TAPER_VOLTAGE: u16 = 4_100;

#[tactic(auto, unfolding(crate::specs::Full::is_full))]
pub fn is_full(settings: Settings, sample: Sample, charge: Charge) -> bool
    ensures { result ≡ Spec.is_full (terms_of settings) sample.current sample.voltage charge.held charge.lmd }
{
    if !sample.current.charging {
        return false;
    }
    if grains_of_counts(charge.lmd) <= charge.held {
        return true;
    }
    if 2 * (taper(settings) as u16) < sample.current.magnitude {
        return false;
    }
    TAPER_VOLTAGE <= sample.voltage
}
