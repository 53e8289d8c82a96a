// A run: VDQ and its drain DCR in grains.
ghost use Rattle.std.specs.Prelude.{◌≡◌};
ghost use Rattle.grains.specs.Run as Spec;

use crate::grains::{passes, saturating_sum};

#[derive(Clone, Copy, Debug, PartialEq, Eq)]
pub struct Run {
    // no Option of a drain: the saved bytes hold VDQ and DCR each by itself, and `accepted` refuses a DCR without VDQ
    pub vdq: bool,
    pub dcr: u64,
}

impl Run {
    // "VDQ is cleared, DCR 0".
    pub fn none() -> Run
        ensures { result ≡ Spec.no_run }
    {
        Run { vdq: false, dcr: 0 }
    }

    // "VDQ set, DCR 0".
    pub fn started() -> Run
        ensures { result ≡ Spec.started_run }
    {
        Run { vdq: true, dcr: 0 }
    }

    // "if VDQ is set, DCR gains" the grains.
    #[tactic(auto, unfolding(crate::specs::Run::drained))]
    pub fn drained(self, grains: u64) -> Run
        ensures { result ≡ Spec.drained self grains }
    {
        if self.vdq {
            let dcr = saturating_sum(self.dcr, grains);
            Run { vdq: true, dcr }
        } else {
            self
        }
    }

    // "If DCR passes 65,535 × G, VDQ is cleared, DCR 0."
    #[tactic(auto, unfolding(crate::specs::Run::unless_passed))]
    pub fn unless_passed(self) -> Run
        ensures { result ≡ Spec.unless_passed self }
    {
        if passes(self.dcr) { Run::none() } else { self }
    }

    // What 14 asks of a run.
    #[tactic(auto, unfolding(crate::specs::Run::run_accepted))]
    pub fn accepted(self) -> bool
        ensures { result ≡ Spec.run_accepted self }
    {
        if passes(self.dcr) {
            return false;
        }
        if self.vdq {
            return true;
        }
        self.dcr == 0
    }
}
