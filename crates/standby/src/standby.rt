// The standby current SI, in sixteenths of a unit.
ghost use Rattle.std.specs.Prelude.{◌≡◌};
ghost use Rattle.configuration.specs.Terms.{terms_of};
ghost use Rattle.standby.specs.Standby as Spec;

use command::command::Command;
use configuration::configuration::s0;
use configuration::settings::Settings;

// As opened.
pub fn opened_standby(settings: Settings) -> u16
    ensures { result ≡ Spec.opened_standby (terms_of settings).s0 }
{
    16 * s0(settings)
}

// Settings leave it; resets put it as opened.
#[tactic(auto, unfolding(crate::specs::Standby::standby_obeyed))]
pub fn standby_obeyed(command: Command, settings: Settings, standby: u16) -> u16
    ensures { result ≡ Spec.standby_obeyed command (terms_of settings).s0 standby }
{
    match command {
        Command::Setting(_) => standby,
        Command::Reset(_) => opened_standby(settings),
    }
}

// Averaged over light loads.
#[tactic(auto, unfolding(crate::specs::Standby::averaged))]
pub fn averaged(settings: Settings, standby: u16, discharge: u16) -> u16
    ensures { result ≡ Spec.averaged (terms_of settings).s0 standby discharge }
{
    if discharge == 0 || 2 * s0(settings) < discharge {
        standby
    } else {
        (15 * (standby as u32) / 16 + discharge as u32) as u16
    }
}

// What 14 asks of it.
#[tactic(auto, unfolding(crate::specs::Standby::standby_accepted))]
pub fn standby_accepted(settings: Settings, standby: u16) -> bool
    ensures { result ≡ Spec.standby_accepted (terms_of settings).s0 standby }
{
    standby <= 32 * s0(settings)
}

// What the register shows, units.
#[tactic(auto, unfolding(crate::specs::Standby::shown))]
pub fn shown(standby: u16) -> u16
    ensures { result ≡ Spec.shown standby }
{
    standby.div_ceil(16)
}
