// What a rest makes of the charge.
ghost use Rattle.std.specs.Prelude.{◌≡◌};
ghost use Rattle.charge.specs.Rest as Spec;

use crate::charge::Charge;
use grains::rest::rest_leak;

impl Charge {
    // n windows of a rest. The rate is the same in each. The run gains their leaks at once: a drain that passes in one of them passes by the sum.
    #[tactic(auto, using(crate::proofs::RestLaws::rested_is, crate::proofs::RestLaws::rested_none))]
    pub fn rested(mut self, windows: u32, rate: u16) -> Charge
        ensures { result ≡ Spec.rested windows rate self }
    {
        if windows == 0 {
            return self;
        }
        let grains = rest_leak(self.held, windows, rate);
        self.held -= grains;
        self.run = self.run.drained(grains).unless_passed();
        self
    }
}
