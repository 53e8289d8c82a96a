// The flags CI, EDV1 and EDVF.
ghost use Rattle.std.specs.Prelude.{◌≡◌};
ghost use Rattle.flags.specs.Flags as Spec;

use command::command::{Command, Reset, Setting};

#[derive(Clone, Copy, Debug, PartialEq, Eq)]
pub struct Flags {
    pub ci: bool,
    pub edv1: bool,
    pub edvf: bool,
}

impl Flags {
    // As opened, but CI as it is given.
    pub fn opened(ci: bool) -> Flags
        ensures { result ≡ Spec.opened_flags ci }
    {
        Flags {
            ci,
            edv1: false,
            edvf: false,
        }
    }

    // Charging clears the end-of-discharge flags.
    #[tactic(auto, unfolding(crate::specs::Flags::cleared_if))]
    pub fn cleared_if(mut self, charging: bool) -> Flags
        ensures { result ≡ Spec.cleared_if charging self }
    {
        if charging {
            self.edv1 = false;
            self.edvf = false;
        }
        self
    }

    // An EDVF window.
    #[tactic(auto, unfolding(crate::specs::Flags::at_edvf))]
    pub fn at_edvf(mut self) -> Flags
        ensures { result ≡ Spec.at_edvf self }
    {
        self.edv1 = true;
        self.edvf = true;
        self
    }

    // The voltage at or below E1.
    #[tactic(auto, unfolding(crate::specs::Flags::at_edv1))]
    pub fn at_edv1(mut self) -> Flags
        ensures { result ≡ Spec.at_edv1 self }
    {
        self.edv1 = true;
        self
    }

    // The voltage at or below E1, and the run qualifies.
    #[tactic(auto, unfolding(crate::specs::Flags::at_taught))]
    pub fn at_taught(mut self) -> Flags
        ensures { result ≡ Spec.at_taught self }
    {
        self.ci = false;
        self.edv1 = true;
        self
    }

    #[tactic(auto, unfolding(crate::specs::Flags::flags_obeyed))]
    pub fn obeyed(self, command: Command) -> Flags
        ensures { result ≡ Spec.flags_obeyed command self }
    {
        match command {
            Command::Setting(Setting::Wrtnac) => self,
            Command::Setting(Setting::Done) => Flags::opened(self.ci),
            Command::Setting(Setting::Wrtlmd) => self,
            Command::Reset(Reset::Prst) => Flags::opened(self.ci),
            Command::Reset(Reset::Frst) => Flags::opened(true),
        }
    }
}
