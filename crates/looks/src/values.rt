// What is shown, by "Registers": the flags, the capacities and the standby current.
ghost use Rattle.std.specs.Prelude.{true, ◌≡◌, ◌*◌, ◌/◌, ◌≤◌, ◌<◌};
ghost use Rattle.gauge.specs.Accepted.{accepted};
ghost use Rattle.registers.specs.Values as Spec;

use compensation::compensation::{compensated, dcmp};
use flags::byte::flags_byte;
use gauge::state::Gauge;
use standby::standby::shown;

// The registers of a gauge that 14 accepts: it holds at most LMD counts, so NAC is a pair of bytes.
#[derive(Clone, Copy)]
pub(crate) struct Registers {
    pub(crate) gauge: Gauge,
    ghost shown: { accepted gauge ≡ true },
}

// "RSOC = floor(100 × NAC / LMD)."
pub(crate) fn rsoc_of(nac: u16, lmd: u16) -> u8
    requires { (0 < lmd) × (nac ≤ lmd) }
    ensures { result ≡ 100 * nac / lmd }
{
    (100 * nac as u32 / lmd as u32) as u8
}

impl Registers {
    // "FLAGS: 7 CHGS, 4 CI, 2 VDQ, 1 EDV1, 0 EDVF."
    pub(crate) fn flags(self) -> u8
        ensures { result ≡ Spec.flags self.gauge }
    {
        let gauge = self.gauge;
        flags_byte(
            gauge.sample.current.charging,
            gauge.charge.run.vdq,
            gauge.flags,
        )
    }

    #[tactic(auto, using(gauge::proofs::AcceptedLaws::nac_within))]
    pub(crate) fn nac(self) -> u16
        ensures value { result ≡ Spec.nac self.gauge }
        ensures within { result ≤ self.gauge.charge.lmd }
    {
        grains::grains::nac(self.gauge.charge.held) as u16
    }

    #[tactic(auto, using(crate::proofs::ValuesLaws::capacity_learned), unfolding(registers::specs::Values::rsoc))]
    pub(crate) fn rsoc(self) -> u8
        ensures { result ≡ Spec.rsoc self.gauge }
    {
        rsoc_of(self.nac(), self.gauge.charge.lmd)
    }

    // DCMP at a current.
    fn dcmp_at(self, current: u16) -> u64
        ensures { result ≡ Spec.aged_dcmp self.gauge current }
    {
        let gauge = self.gauge;
        dcmp(
            gauge.settings,
            current,
            gauge.sample.temperature,
            gauge.counters.cycles.cyct,
        )
    }

    // The counts that are usable at a current.
    #[tactic(auto, unfolding(registers::specs::Values::usable_at))]
    pub(crate) fn usable_at(self, current: u16) -> u16
        ensures { result ≡ Spec.usable_at self.gauge current }
    {
        compensated(self.nac(), self.dcmp_at(current))
    }

    pub(crate) fn cac(self) -> u16
        ensures { result ≡ Spec.cac self.gauge }
    {
        self.usable_at(self.gauge.sample.current.discharge_current())
    }

    // D, the compensation at the last counted current.
    #[tactic(auto, unfolding(registers::specs::Values::reduction))]
    pub(crate) fn reduction(self) -> u64
        ensures { result ≡ Spec.reduction self.gauge }
    {
        self.dcmp_at(self.gauge.sample.current.discharge_current())
    }

    #[tactic(auto, unfolding(registers::specs::Values::fcac))]
    pub(crate) fn fcac(self) -> u16
        ensures { result ≡ Spec.fcac self.gauge }
    {
        compensated(self.gauge.charge.lmd, self.reduction())
    }

    // SI as it is shown, units.
    pub(crate) fn si(self) -> u16
        ensures { result ≡ Spec.si self.gauge }
    {
        shown(self.gauge.standby)
    }
}
