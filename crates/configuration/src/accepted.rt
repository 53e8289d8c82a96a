// What 14 asks of the settings.
ghost use Rattle.std.specs.Prelude.{◌≡◌};
ghost use Rattle.configuration.specs.Settings as Spec;

use crate::configuration::ilmd;
use crate::settings::Settings;

impl Settings {
    #[tactic(auto, unfolding(crate::specs::Settings::settings_accepted))]
    pub fn accepted(self) -> bool
        ensures { result ≡ Spec.settings_accepted self }
    {
        ilmd(self) != 0
    }
}
