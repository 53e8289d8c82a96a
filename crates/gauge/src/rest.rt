// "A rest of n windows".
ghost use Rattle.std.specs.Prelude.{◌≡◌};
ghost use Rattle.gauge.specs.Rest as Spec;

use crate::state::Gauge;
use configuration::configuration::sd;
use grains::leak::leak_rate;

impl Gauge {
    #[tactic(auto, unfolding(crate::specs::Rest::rest))]
    pub(crate) fn rested(self, windows: u32, temperature: u16) -> Gauge
        ensures { result ≡ Spec.rest windows temperature self }
    {
        let rate = leak_rate(sd(self.settings), temperature);
        Gauge {
            charge: self.charge.rested(windows, rate),
            sample: self.sample.rested(temperature),
            counters: self.counters.rested(windows),
            ..self
        }
    }
}
