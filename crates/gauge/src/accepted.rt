// What refusal 14 tests: the conditions of "Saved gauge" on a gauge value.
ghost use Rattle.std.specs.Prelude.{◌≡◌};
ghost use Rattle.gauge.specs.Accepted as Spec;
ghost use Rattle.gauge.specs.Answer.{unless_rejected};
ghost use Rattle.refusals.specs.Refusal.{none, number_of};

use crate::state::Gauge;
use configuration::configuration::dmf;
use refusals::Refusal;
use standby::standby::standby_accepted;

impl Gauge {
    pub fn accepted(self) -> bool
        ensures { result ≡ Spec.accepted self }
    {
        let settings = self.settings;
        if !settings.accepted() {
            return false;
        }
        if !self.charge.accepted() {
            return false;
        }
        if !standby_accepted(settings, self.standby) {
            return false;
        }
        if !self.sample.accepted(dmf(settings)) {
            return false;
        }
        self.counters.accepted()
    }
    // 14, before any other refusal.
    pub fn tested(self) -> Result<(), Refusal>
        ensures { number_of result ≡ unless_rejected self none }
    {
        if !self.accepted() {
            return Err(Refusal::Rejected);
        }
        Ok(())
    }
}
