// What each command makes of the charge.
ghost use Rattle.std.specs.Prelude.{◌≡◌};
ghost use Rattle.configuration.specs.Terms.{terms_of};
ghost use Rattle.charge.specs.Obeyed as Spec;

use crate::charge::Charge;
use command::command::{Command, Reset, Setting};
use configuration::settings::Settings;
use grains::grains::grains_of_counts;
use grains::run::Run;

impl Charge {
    // WRTNAC.
    #[tactic(auto, unfolding(crate::specs::Obeyed::written_nac))]
    fn written_nac(mut self, ar: u16) -> Charge
        ensures { result ≡ Spec.written_nac ar self }
    {
        self.held = grains_of_counts(ar.min(self.lmd));
        self.run = Run::none();
        self
    }

    // WRTLMD.
    #[tactic(auto, unfolding(crate::specs::Obeyed::written_lmd))]
    fn written_lmd(self, ar: u16) -> Charge
        ensures { result ≡ Spec.written_lmd ar self }
    {
        Charge {
            held: self.held.min(grains_of_counts(ar)),
            lmd: ar,
            run: Run::none(),
        }
    }

    #[tactic(auto, unfolding(crate::specs::Obeyed::charge_obeyed))]
    pub fn obeyed(self, command: Command, settings: Settings, ar: u16) -> Charge
        ensures { result ≡ Spec.charge_obeyed command (terms_of settings) ar self }
    {
        match command {
            Command::Setting(Setting::Wrtnac) => self.written_nac(ar),
            Command::Setting(Setting::Done) => self.filled(),
            Command::Setting(Setting::Wrtlmd) => self.written_lmd(ar),
            Command::Reset(Reset::Prst) => self.without_run(),
            Command::Reset(Reset::Frst) => Charge::opened(settings),
        }
    }
}
