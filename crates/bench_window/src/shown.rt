// NAC, LMD, RSOC and FLAGS, read as a host reads them.
ghost use Rattle.std.specs.Prelude.{◌≡◌};
ghost use Rattle.bench_window.specs.Shown as Spec;

use bench_output::output::Output;
use gauge::state::Gauge;
use looks::reading::read;

// The six registers from 0x0A on: FLAGS, RSOC, NAC and LMD; or 14.
#[tactic(auto, unfolding(crate::specs::Shown::registers_output))]
pub fn registers_output(gauge: Gauge) -> Output
    ensures { result ≡ Spec.registers_output gauge }
{
    let mut six = [0u8; 6];
    match read(gauge, 0x0A, 6, &mut six, 0) {
        Ok(()) => Output::Registers {
            nac: u16::from_le_bytes([six[2], six[3]]),
            lmd: u16::from_le_bytes([six[4], six[5]]),
            rsoc: six[1],
            flags: six[0],
        },
        Err(refusal) => Output::Refused(refusal.number()),
    }
}
