// A key at CTRL, on the saved bytes: what a host writes, and what a preview writes to a copy.
ghost use Rattle.std.specs.Prelude.{◌≡◌};
ghost use Rattle.gauge.specs.Obey.{obeyed};
ghost use Rattle.load.specs.Load.{decoded_gauge};
ghost use Rattle.refusals.specs.Refusal.{number_of};
ghost use Rattle.saved.specs.Put.{parts_put};
ghost use Rattle.moves.specs.Key as Spec;

use command::command::{Command, Reset, Setting, decide};
use load::parts::{
    loaded_charge, loaded_counters, loaded_flags, loaded_host, loaded_sample, loaded_settings,
    loaded_standby,
};
use refusals::Refusal;
use saved::parts::{put_charge, put_counters, put_flags, put_host, put_sample, put_standby};
use standby::standby::standby_obeyed;

// A setting: the sample, SI and the counters stay.
#[tactic(auto, unfolding(gauge::specs::Obey::obeyed, sample::specs::Sample::sample_obeyed))]
fn obey_setting(saved: &mut [u8], setting: Setting)
    ensures { saved.new ≡ Spec.setting_put (obeyed (Command.Setting setting) (decoded_gauge saved.old)) saved.old }
{
    let command = Command::Setting(setting);
    let settings = loaded_settings(saved);
    let before = loaded_host(saved);
    let sample = loaded_sample(saved);
    let charge = loaded_charge(saved).obeyed(command, settings, before.ar);
    let flags = loaded_flags(saved).obeyed(command);
    let host = before.obeyed(command, settings);
    put_charge(saved, charge);
    put_host(saved, host);
    put_flags(saved, sample.current.charging, charge.run.vdq, flags);
}

// A reset.
#[tactic(auto, unfolding(gauge::specs::Obey::obeyed))]
fn obey_reset(saved: &mut [u8], reset: Reset)
    ensures { saved.new ≡ parts_put (obeyed (Command.Reset reset) (decoded_gauge saved.old)) saved.old }
{
    let command = Command::Reset(reset);
    let settings = loaded_settings(saved);
    let before = loaded_host(saved);
    let charge = loaded_charge(saved).obeyed(command, settings, before.ar);
    let sample = loaded_sample(saved).obeyed(command);
    let standby = standby_obeyed(command, settings, loaded_standby(saved));
    let flags = loaded_flags(saved).obeyed(command);
    let host = before.obeyed(command, settings);
    let counters = loaded_counters(saved).obeyed(command);
    put_charge(saved, charge);
    put_standby(saved, standby);
    put_sample(saved, sample);
    put_host(saved, host);
    put_flags(saved, sample.current.charging, charge.run.vdq, flags);
    put_counters(saved, counters);
}

// By its kind: what a kind leaves alone is not loaded.
#[tactic(auto, unfolding(crate::specs::Key::obeyed_put))]
fn obey(saved: &mut [u8], command: Command)
    ensures { saved.new ≡ Spec.obeyed_put command (obeyed command (decoded_gauge saved.old)) saved.old }
{
    match command {
        Command::Setting(setting) => obey_setting(saved, setting),
        Command::Reset(reset) => obey_reset(saved, reset),
    }
}

// 8 to 11, or the command obeyed. 14 is the caller's.
#[tactic(auto, unfolding(crate::specs::Key::key_number, crate::specs::Key::key_bytes, crate::specs::Key::decided_put))]
pub fn press(saved: &mut [u8], key: u8) -> Result<(), Refusal>
    ensures number { number_of result ≡ Spec.key_number saved.old key }
    ensures bytes { saved.new ≡ Spec.key_bytes saved.old key }
{
    let host = loaded_host(saved);
    let command = decide(key, host.mode, host.ar)?;
    obey(saved, command);
    Ok(())
}
