// "Opening".
ghost use Rattle.std.specs.Prelude.{◌≡◌};
ghost use Rattle.gauge.specs.Opening as Spec;
ghost use Rattle.refusals.specs.Refusal.{Answers};

use crate::state::Gauge;
use charge::charge::Charge;
use configuration::configuration::ilmd;
use configuration::settings::{Configuration, Settings};
use counters::counters::Counters;
use flags::flags::Flags;
use host::host::Host;
use refusals::Refusal;
use sample::sample::Sample;
use standby::standby::opened_standby;

fn opened(configuration: Configuration) -> Gauge
    ensures { result ≡ Spec.opened configuration }
{
    let settings = Settings::opened(configuration);
    let charge = Charge::opened(settings);
    let sample = Sample::none();
    let standby = opened_standby(settings);
    let flags = Flags::opened(true);
    let host = Host::opened(settings);
    let counters = Counters::opened();
    Gauge {
        settings,
        charge,
        sample,
        standby,
        flags,
        host,
        counters,
    }
}

// Opening from bytes of any length: 1, 2, or the opened gauge.
pub fn open(bytes: &[u8]) -> Result<Gauge, Refusal>
    ensures { Answers result (Spec.open_refusal bytes.now) (Spec.opened bytes.now) }
{
    let Ok(configuration) = Configuration::try_from(bytes) else {
        return Err(Refusal::ConfigurationLength);
    };
    if ilmd(Settings::opened(configuration)) == 0 {
        return Err(Refusal::IlmdZero);
    }
    Ok(opened(configuration))
}
