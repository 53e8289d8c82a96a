// The bytes that the host writes: MODE and AR.
ghost use Rattle.std.specs.Prelude.{◌≡◌};
ghost use Rattle.configuration.specs.Terms.{terms_of};
ghost use Rattle.host.specs.Host as Spec;

use command::command::{Command, Setting};
use configuration::configuration::opened_mode;
use configuration::settings::Settings;

#[derive(Clone, Copy, Debug, PartialEq, Eq)]
pub struct Host {
    pub mode: u8,
    pub ar: u16,
}

// MODE with INIT (bit 2) cleared.
#[tactic(auto, using(crate::proofs::HostLaws::init_cleared_is))]
fn init_cleared(mode: u8) -> u8
    ensures { result ≡ Spec.init_cleared mode }
{
    mode & 0b1111_1011
}

// MODE with its command bits 5, 4, 3, 1 and 0 cleared.
#[tactic(auto, using(crate::proofs::HostLaws::commands_cleared_is))]
fn commands_cleared(mode: u8) -> u8
    ensures { result ≡ Spec.commands_cleared mode }
{
    mode & 0b1100_0100
}

impl Host {
    #[tactic(auto, unfolding(crate::specs::Host::opened_host))]
    pub fn opened(settings: Settings) -> Host
        ensures { result ≡ Spec.opened_host (terms_of settings) }
    {
        Host {
            mode: opened_mode(settings),
            ar: 0,
        }
    }

    // A byte at MODE (1), AR low (2) or AR high (3). The address is the number that C hands in, and each has an answer.
    #[tactic(auto, unfolding(crate::specs::Host::stored))]
    pub fn stored(mut self, address: u32, value: u8) -> Host
        ensures { result ≡ Spec.stored address value self }
    {
        let [low, high] = self.ar.to_le_bytes();
        match address {
            1 => self.mode = value,
            2 => self.ar = u16::from_le_bytes([value, high]),
            _ => self.ar = u16::from_le_bytes([low, value]),
        }
        self
    }

    // A full window clears INIT.
    #[tactic(auto, unfolding(crate::specs::Host::full_if))]
    pub fn full_if(mut self, full: bool) -> Host
        ensures { result ≡ Spec.full_if full self }
    {
        if full {
            self.mode = init_cleared(self.mode);
        }
        self
    }

    // MODE and AR before the command bits are cleared.
    #[tactic(auto, unfolding(crate::specs::Host::commanded))]
    fn commanded(self, command: Command, settings: Settings) -> Host
        ensures { result ≡ Spec.commanded command (terms_of settings) self }
    {
        match command {
            Command::Setting(Setting::Wrtnac) => self,
            Command::Setting(Setting::Done) => self.full_if(true),
            Command::Setting(Setting::Wrtlmd) => self,
            Command::Reset(_) => Host::opened(settings),
        }
    }

    #[tactic(auto, unfolding(crate::specs::Host::host_obeyed))]
    pub fn obeyed(self, command: Command, settings: Settings) -> Host
        ensures { result ≡ Spec.host_obeyed command (terms_of settings) self }
    {
        let mut commanded = self.commanded(command, settings);
        commanded.mode = commands_cleared(commanded.mode);
        commanded
    }
}
