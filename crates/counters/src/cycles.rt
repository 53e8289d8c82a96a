// CYCT and its drain: "one more cycle for every whole LMD × G in it".
ghost use Rattle.std.specs.Prelude.{◌≡◌};
ghost use Rattle.counters.specs.Cycles as Spec;

use grains::grains::{MOST_DRAIN, grains_of_counts, grains_of_current, saturating_sum};
use sample::current::Current;

// "CYCT stops at 65,535".
const MOST_CYCLES: u64 = 65_535;

#[derive(Clone, Copy, Debug, PartialEq, Eq)]
pub struct Cycles {
    // CYCT
    pub cyct: u16,
    // grains discharged that no cycle was counted for yet
    pub drain: u64,
}

// CYCT and further cycles, without a sum that could wrap.
#[tactic(auto, unfolding(crate::specs::Cycles::cyct_after))]
fn cyct_after(cyct: u16, cycles: u64) -> u16
    ensures { result ≡ Spec.cyct_after cyct cycles }
{
    cycles.saturating_add(cyct as u64).min(MOST_CYCLES) as u16
}

impl Cycles {
    // Opening, and FRST.
    #[tactic(auto, unfolding(crate::specs::Cycles::no_cycles))]
    pub fn none() -> Cycles
        ensures { result ≡ Spec.no_cycles }
    {
        Cycles { cyct: 0, drain: 0 }
    }

    // A window with the counted current c, and the LMD before it. Most windows end no cycle and divide nothing; nor does an LMD of 0, which 14 refuses.
    pub fn moved(mut self, lmd: u16, current: Current) -> Cycles
        ensures { result ≡ Spec.cycles_moved lmd current self }
    {
        let drain = saturating_sum(self.drain, grains_of_current(current.discharge_current()));
        let whole = grains_of_counts(lmd);
        if drain < whole || lmd == 0 {
            self.drain = drain;
        } else {
            self.cyct = cyct_after(self.cyct, drain / whole);
            self.drain = drain % whole;
        }
        self
    }

    // What 14 asks of the drain.
    #[tactic(auto, unfolding(crate::specs::Cycles::cycles_accepted))]
    pub fn accepted(self) -> bool
        ensures { result ≡ Spec.cycles_accepted self }
    {
        self.drain < MOST_DRAIN
    }
}
