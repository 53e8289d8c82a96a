// A current by direction and magnitude, and the counted current of a window.
ghost use Rattle.std.specs.Prelude.{◌≡◌};
ghost use Rattle.sample.specs.Current as Spec;

#[derive(Clone, Copy, Debug, PartialEq, Eq)]
pub struct Current {
    // above 0; no Option: a current has a magnitude in either direction
    pub charging: bool,
    pub magnitude: u16,
}

impl Current {
    // No current.
    pub fn none() -> Current
        ensures { result ≡ Spec.no_current }
    {
        Current {
            charging: false,
            magnitude: 0,
        }
    }

    // The counted current c: the filter by DMF.
    #[tactic(auto, unfolding(crate::specs::Current::counted))]
    pub fn counted(self, dmf: u8) -> Current
        ensures { result ≡ Spec.counted dmf self }
    {
        if self.magnitude <= dmf as u16 {
            return Current::none();
        }
        self
    }

    // c where c > 0, else 0.
    #[tactic(auto, unfolding(crate::specs::Current::charge_current))]
    pub fn charge_current(self) -> u16
        ensures { result ≡ Spec.charge_current self }
    {
        if self.charging {
            return self.magnitude;
        }
        0
    }

    // |c| where c < 0, else 0.
    #[tactic(auto, unfolding(crate::specs::Current::discharge_current))]
    pub fn discharge_current(self) -> u16
        ensures { result ≡ Spec.discharge_current self }
    {
        if self.charging {
            return 0;
        }
        self.magnitude
    }
}
