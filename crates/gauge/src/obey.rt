// What a command makes of each part of the gauge.
ghost use Rattle.std.specs.Prelude.{◌≡◌};
ghost use Rattle.gauge.specs.Obey as Spec;

use crate::state::Gauge;
use command::command::Command;
use standby::standby::standby_obeyed;

impl Gauge {
    #[tactic(auto, unfolding(crate::specs::Obey::obeyed))]
    pub(crate) fn obeyed(self, command: Command) -> Gauge
        ensures { result ≡ Spec.obeyed command self }
    {
        let settings = self.settings;
        Gauge {
            charge: self.charge.obeyed(command, settings, self.host.ar),
            sample: self.sample.obeyed(command),
            standby: standby_obeyed(command, settings, self.standby),
            flags: self.flags.obeyed(command),
            host: self.host.obeyed(command, settings),
            counters: self.counters.obeyed(command),
            ..self
        }
    }
}
