// "A read copies count registers from an address to a place inside the host's reply; its other bytes keep."
ghost use Rattle.std.specs.Prelude.{true, ◌≡◌, ◌+◌, ◌%◌, ◌≤◌, length};
ghost use Rattle.gauge.specs.Accepted.{accepted};
ghost use Rattle.load.specs.Load.{decoded_gauge};
ghost use Rattle.load.specs.Look.{look_leaves, look_number};
ghost use Rattle.refusals.specs.Refusal.{number_of};
ghost use Rattle.registers.specs.Map.{register_count, registers_from};
ghost use Rattle.registers.specs.Reading as Spec;

use crate::values::Registers;
use crate::whole::{SAVED_LENGTH, put_registers};
use gauge::state::Gauge;
use load::load::{decoded, tested};
use numbers::front::put_front;
use refusals::Refusal;
use registers::REGISTER_COUNT;
use saved::save::save;

// 0x00 to 0x7F.
const ADDRESSES: u32 = REGISTER_COUNT as u32;

// The bytes of one pair of addresses, "low byte first": one of them, or both.
fn copy_pair(pair: u16, address: u32, part: &mut [u8])
    requires { (1 ≤ length part.old) × (address % 2 + length part.old ≤ 2) }
    ensures { part.new ≡ Spec.pair_bytes pair (address % 2) (length part.old) }
{
    let [low, high] = pair.to_le_bytes();
    if address % 2 == 1 {
        part[0] = high;
    } else if part.len() == 1 {
        part[0] = low;
    } else {
        part[0] = low;
        part[1] = high;
    }
}

// As many registers as the part is long, from an address on. A read within one pair of addresses computes that pair alone; all registers are
// stored where they are asked for; any other read copies from the whole map.
fn copy_registers(saved: &[u8; SAVED_LENGTH], address: u32, part: &mut [u8])
    requires { (accepted (decoded_gauge saved.now) ≡ true) × (1 ≤ length part.old) × (address + length part.old ≤ register_count) }
    ensures { part.new ≡ registers_from (decoded_gauge saved.now) address (length part.old) }
{
    if (address % 2) as usize + part.len() <= 2 {
        let gauge = decoded(saved);
        copy_pair(Registers { gauge }.pair_at(address / 2), address, part);
        return;
    }
    if let Some(whole) = part.as_mut_array() {
        put_registers(saved, whole);
        return;
    }
    let start = address as usize;
    let end = start + part.len();
    let mut whole = [0u8; REGISTER_COUNT];
    put_registers(saved, &mut whole);
    put_front(&whole[start..end], part);
}

// 14, 12, 13, or the registers in their place. No sum is formed that could wrap.
#[tactic(auto, using(crate::proofs::TestedLaws::held_accepted, crate::proofs::TestedLaws::misfit_answer, refusals::proofs::OrElseLaws::number_above), unfolding(load::specs::Look::look_leaves, load::specs::Look::look_number))]
pub fn read_in(
    saved: &[u8],
    address: u32,
    count: u32,
    reply: &mut [u8],
    place: u32,
) -> Result<(), Refusal>
    ensures number { number_of result ≡ look_number saved.now (λ g. Spec.read_refusal g address count place (length reply.old)) }
    ensures bytes { reply.new ≡ look_leaves saved.now (λ g. Spec.reply_after g address count place reply.old) reply.old }
{
    let Some(saved) = saved.as_array() else {
        return Err(Refusal::Rejected);
    };
    tested(saved)?;
    if count == 0 || ADDRESSES < count || ADDRESSES - count < address {
        return Err(Refusal::RegisterRange);
    }
    let start = place as usize;
    let end = start + count as usize;
    if reply.len() < end {
        return Err(Refusal::BufferLength);
    }
    copy_registers(saved, address, &mut reply[start..end]);
    Ok(())
}

// The same of a gauge value, which is saved first.
pub fn read(
    gauge: Gauge,
    address: u32,
    count: u32,
    reply: &mut [u8],
    place: u32,
) -> Result<(), Refusal>
    ensures number { number_of result ≡ Spec.read_refusal gauge address count place (length reply.old) }
    ensures bytes { reply.new ≡ Spec.reply_after gauge address count place reply.old }
{
    let mut bytes = [0u8; SAVED_LENGTH];
    save(gauge, &mut bytes)?;
    read_in(&bytes, address, count, reply, place)
}
