// The whole map of "Registers" at once, from the saved bytes: each register is computed once and stored at its address.
ghost use Rattle.std.specs.Prelude.{true, ◌≡◌, ◌+◌, ◌<◌};
ghost use Rattle.gauge.specs.Accepted.{accepted};
ghost use Rattle.load.specs.Load.{decoded_gauge};
ghost use Rattle.looks.specs.Put as Put;
ghost use Rattle.registers.specs.Map.{register_count};
ghost use Rattle.registers.specs.Whole as Spec;

use crate::map::configuration_pair;
use crate::times::time;
use crate::values::{Registers, rsoc_of};
use compensation::compensation::compensated;
use configuration::configuration::e1;
use configuration::settings::Settings;
use form::form::LENGTH;
use load::load::decoded;
use load::parts::loaded_settings;
use registers::REGISTER_COUNT;

// The bytes of the newest form.
pub(crate) const SAVED_LENGTH: usize = LENGTH as usize;

// "pairs stand low byte first".
fn put_pair(bytes: &mut [u8; REGISTER_COUNT], at: usize, pair: u16)
    requires { at + 1 < register_count }
    ensures { bytes.new ≡ Spec.with_pair at pair bytes.old }
{
    let [low, high] = pair.to_le_bytes();
    bytes[at] = low;
    bytes[at + 1] = high;
}

fn put_byte(bytes: &mut [u8; REGISTER_COUNT], at: usize, byte: u8)
    requires { at < register_count }
    ensures { bytes.new ≡ Put.with_byte at byte bytes.old }
{
    bytes[at] = byte;
}

// The registers that are computed, all before the first is stored: the compiler does not know that the reply is not the saved bytes, and would
// read the gauge again after a store.
#[tactic(auto, using(crate::proofs::ValuesLaws::capacity_learned), unfolding(registers::specs::Times::artte, registers::specs::Times::stte, registers::specs::Times::tte, registers::specs::Times::ttf, registers::specs::Values::fcac, registers::specs::Values::reduction, registers::specs::Values::rsoc, registers::specs::Values::usable_at))]
fn put_computed(registers: Registers, bytes: &mut [u8; REGISTER_COUNT])
    ensures { bytes.new ≡ Put.computed registers.gauge bytes.old }
{
    let gauge = registers.gauge;
    let lmd = gauge.charge.lmd;
    let ar = gauge.host.ar;
    let discharge = gauge.sample.current.discharge_current();
    let charge = gauge.sample.current.charge_current();
    let nac = registers.nac();
    let reduction = registers.reduction();
    let cac = compensated(nac, reduction);
    let fcac = compensated(lmd, reduction);
    let artte = time(60, registers.usable_at(ar), ar);
    let rsoc = rsoc_of(nac, lmd);
    let tte = time(60, cac, discharge);
    let ttf = time(90, lmd - nac, charge);
    let stte = time(60, nac, registers.si());
    put_pair(bytes, 0x04, artte);
    put_byte(bytes, 0x0B, rsoc);
    put_pair(bytes, 0x0C, nac);
    put_pair(bytes, 0x10, cac);
    put_pair(bytes, 0x12, fcac);
    put_pair(bytes, 0x16, tte);
    put_pair(bytes, 0x18, ttf);
    put_pair(bytes, 0x1C, stte);
}

// The registers that are only copied.
fn put_copied(registers: Registers, bytes: &mut [u8; REGISTER_COUNT])
    ensures { bytes.new ≡ Put.copied registers.gauge bytes.old }
{
    let gauge = registers.gauge;
    put_byte(bytes, 0x01, gauge.host.mode);
    put_pair(bytes, 0x02, gauge.host.ar);
    put_pair(bytes, 0x06, gauge.sample.temperature);
    put_pair(bytes, 0x08, gauge.sample.voltage);
    put_byte(bytes, 0x0A, registers.flags());
    put_pair(bytes, 0x0E, gauge.charge.lmd);
    put_pair(bytes, 0x14, gauge.sample.current.magnitude);
    put_pair(bytes, 0x1A, registers.si());
    put_pair(bytes, 0x20, e1(gauge.settings));
    put_pair(bytes, 0x2A, gauge.counters.cycles.cyct);
}

// 0x76 to 0x7F.
fn put_configuration(settings: Settings, bytes: &mut [u8; REGISTER_COUNT])
    ensures { bytes.new ≡ Put.configured settings bytes.old }
{
    put_pair(bytes, 0x76, configuration_pair(settings, 59));
    put_pair(bytes, 0x78, configuration_pair(settings, 60));
    put_pair(bytes, 0x7A, configuration_pair(settings, 61));
    put_pair(bytes, 0x7C, configuration_pair(settings, 62));
    put_pair(bytes, 0x7E, configuration_pair(settings, 63));
}

// 0x00 to 0x7F, stored over zeros: CTRL "always reads 0", and "other bytes to 0x7F are 0". The lengths stand in the types, so that the compiler
// knows them too and no read or store tests them.
pub(crate) fn put_registers(saved: &[u8; SAVED_LENGTH], reply: &mut [u8; REGISTER_COUNT])
    requires { accepted (decoded_gauge saved.now) ≡ true }
    ensures { reply.new ≡ Spec.whole_map (decoded_gauge saved.now) }
{
    *reply = [0; REGISTER_COUNT];
    let gauge = decoded(saved);
    put_computed(Registers { gauge }, reply);
    let gauge = decoded(saved);
    put_copied(Registers { gauge }, reply);
    put_configuration(loaded_settings(saved), reply);
}
