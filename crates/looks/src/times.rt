// The times that are shown, by "Registers": minutes, 65,535 where the divisor is 0 or the current has the wrong sign.
ghost use Rattle.std.specs.Prelude.{◌≡◌, ◌*◌};
ghost use Rattle.compensation.specs.Compensation as Compensation;
ghost use Rattle.registers.specs.Times as Spec;

use crate::values::Registers;
use compensation::compensation::minutes;

// A multiple of counts over a current: "60 × CAC / IAV", "90 × (LMD − NAC) / IAV", "60 × NAC / SI" and "60 × max(0, NAC − DCMP(AR)) / AR".
pub(crate) fn time(multiple: u8, counts: u16, current: u16) -> u16
    ensures { result ≡ Compensation.minutes (multiple * counts) current }
{
    minutes(multiple as u32 * counts as u32, current)
}

impl Registers {
    #[tactic(auto, unfolding(registers::specs::Times::tte))]
    pub(crate) fn tte(self) -> u16
        ensures { result ≡ Spec.tte self.gauge }
    {
        let discharge = self.gauge.sample.current.discharge_current();
        time(60, self.cac(), discharge)
    }

    #[tactic(auto, unfolding(registers::specs::Times::ttf))]
    pub(crate) fn ttf(self) -> u16
        ensures { result ≡ Spec.ttf self.gauge }
    {
        let missing = self.gauge.charge.lmd - self.nac();
        let charge = self.gauge.sample.current.charge_current();
        time(90, missing, charge)
    }

    #[tactic(auto, unfolding(registers::specs::Times::stte))]
    pub(crate) fn stte(self) -> u16
        ensures { result ≡ Spec.stte self.gauge }
    {
        time(60, self.nac(), self.si())
    }

    #[tactic(auto, unfolding(registers::specs::Times::artte))]
    pub(crate) fn artte(self) -> u16
        ensures { result ≡ Spec.artte self.gauge }
    {
        let ar = self.gauge.host.ar;
        time(60, self.usable_at(ar), ar)
    }
}
