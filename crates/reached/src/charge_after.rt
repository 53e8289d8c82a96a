// Steps 1 and 2 of a window, of the charge alone.
ghost use Rattle.std.specs.Prelude.{◌≡◌};
ghost use Rattle.configuration.specs.Terms.{terms_of};
ghost use Rattle.reached.specs.ChargeAfter as Spec;

use charge::charge::Charge;
use configuration::configuration::sd;
use configuration::settings::Settings;
use grains::leak::leak_rate;
use sample::sample::Sample;

// The leak, and the sum of the counted current.
#[tactic(auto, unfolding(crate::specs::ChargeAfter::summed))]
pub fn summed(charge: Charge, settings: Settings, sample: Sample) -> Charge
    ensures { result ≡ Spec.summed (terms_of settings) sample.current sample.temperature charge }
{
    let rate = leak_rate(sd(settings), sample.temperature);
    charge.leaked(rate).moved(sample.current)
}
