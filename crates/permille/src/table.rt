// "a stored table of 301 entries, 3,000 to 4,200 mV in steps of 4, a voltage between taking the lower".
ghost use Rattle.std.specs.Prelude.{◌≡◌, ◌≤◌, ◌<◌, IfSome};
ghost use Rattle.permille.specs.Rule.{rule};
ghost use Rattle.permille.specs.Table as Spec;

use crate::entries::TABLE;
use numbers::signed::at_least_zero;

const FIRST_VOLTAGE: u32 = 3_000;

const LAST_VOLTAGE: u32 = 4_200;

const VOLTAGE_STEP: u32 = 4;

fn entry(at: u32) -> u16
    requires { at < Spec.entries }
    ensures value { result ≡ rule (Spec.entry_voltage at) }
    ensures most { result ≤ 1_000 }
{
    TABLE[at as usize]
}

// 16 is for a voltage that is not.
pub fn in_table(voltage: i32) -> bool
    ensures { result ≡ Spec.in_table voltage }
{
    let value = at_least_zero(voltage);
    FIRST_VOLTAGE <= value && value <= LAST_VOLTAGE
}

// None outside the table.
pub fn permille_in(voltage: i32) -> Option<u16>
    ensures value { result ≡ Spec.permille_in voltage }
    ensures most { IfSome result (λ permille. permille ≤ 1_000) }
{
    if in_table(voltage) {
        let at = (at_least_zero(voltage) - FIRST_VOLTAGE) / VOLTAGE_STEP;
        Some(entry(at))
    } else {
        None
    }
}

// 0 outside the table, as the definition has it; `permille_in` tells the two apart.
#[tactic(auto, unfolding(crate::specs::Table::permille_in, crate::specs::Table::permille))]
pub fn permille(voltage: i32) -> u16
    ensures value { result ≡ Spec.permille voltage }
    ensures most { result ≤ 1_000 }
{
    permille_in(voltage).unwrap_or(0)
}
