// "Look before writing": a key at CTRL is written to a copy of the saved bytes, whose registers are then shown. 14 is tested once: a command leaves an
// accepted gauge accepted.
ghost use Rattle.std.specs.Prelude.{◌≡◌, length};
ghost use Rattle.load.specs.Look.{look_leaves, look_number};
ghost use Rattle.preview.specs.Preview as Spec;
ghost use Rattle.refusals.specs.Refusal.{number_of};

use crate::whole::{SAVED_LENGTH, put_registers};
use command::command::command_of;
use load::load::tested;
use load::parts::loaded_host;
use moves::key::press;
use refusals::Refusal;

// 14, 8 to 11, 13, or the registers after the key and the command that it obeys.
#[tactic(auto, using(crate::proofs::TestedLaws::misfit_answer, refusals::proofs::OrElseLaws::number_above), unfolding(load::specs::Look::look_leaves, load::specs::Look::look_number))]
pub fn preview(saved: &[u8], key: u8, reply: &mut [u8], command: &mut u8) -> Result<(), Refusal>
    ensures number { number_of result ≡ look_number saved.now (λ g. Spec.preview_refusal g key (length reply.old)) }
    ensures bytes { reply.new ≡ look_leaves saved.now (λ g. Spec.reply_after g key reply.old) reply.old }
    ensures command { command.new ≡ look_leaves saved.now (λ g. Spec.command_after g key (length reply.old) command.old) command.old }
{
    let Ok(mut copied) = <[u8; SAVED_LENGTH]>::try_from(saved) else {
        return Err(Refusal::Rejected);
    };
    tested(&copied)?;
    press(&mut copied, key)?;
    let Some(map) = reply.as_mut_array() else {
        return Err(Refusal::BufferLength);
    };
    let host = loaded_host(saved);
    *command = command_of(key, host.mode, host.ar);
    put_registers(&copied, map);
    Ok(())
}
