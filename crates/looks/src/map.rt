// The map of "Registers", by pairs of addresses: of all that is shown, only the pair asked for is computed.
ghost use Rattle.std.specs.Prelude.{◌≡◌, ◌-◌, ◌≤◌, ◌<◌};
ghost use Rattle.registers.specs.Map as Spec;

use crate::values::Registers;
use configuration::configuration::e1;
use configuration::settings::Settings;
use numbers::little::pair_of;

// 0x76 to 0x7F.
pub(crate) fn configuration_pair(settings: Settings, pair: u32) -> u16
    requires { (59 ≤ pair) × (pair < 64) }
    ensures { result ≡ Spec.configuration_pair settings (pair - 59) }
{
    let at = 2 * (pair - 59) as usize;
    let bytes = settings.bytes;
    pair_of(bytes[at], bytes[at + 1])
}

impl Registers {
    // The registers 2n and 2n + 1: CTRL, which "always reads 0", and MODE stand first; "other bytes to 0x7F are 0".
    pub(crate) fn pair_at(self, pair: u32) -> u16
        requires { pair < 64 }
        ensures { result ≡ Spec.pair_at self.gauge pair }
    {
        match pair {
            0 => pair_of(0, self.gauge.host.mode),
            1 => self.gauge.host.ar,
            2 => self.artte(),
            3 => self.gauge.sample.temperature,
            4 => self.gauge.sample.voltage,
            5 => pair_of(self.flags(), self.rsoc()),
            6 => self.nac(),
            7 => self.gauge.charge.lmd,
            8 => self.cac(),
            9 => self.fcac(),
            10 => self.gauge.sample.current.magnitude,
            11 => self.tte(),
            12 => self.ttf(),
            13 => self.si(),
            14 => self.stte(),
            16 => e1(self.gauge.settings),
            21 => self.gauge.counters.cycles.cyct,
            59..64 => configuration_pair(self.gauge.settings, pair),
            _ => 0,
        }
    }
}
