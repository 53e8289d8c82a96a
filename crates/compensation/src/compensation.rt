// "Registers", the compensation and the times. Callers know DCMP by its name and its laws.
ghost use Rattle.std.specs.Prelude.{◌≡◌, ◌*◌, ◌≤◌};
ghost use Rattle.compensation.specs.Compensation as Spec;

use configuration::configuration::{cold_threshold, dcgn, dcoff, gaf, ilmd, tcgn};
use configuration::settings::Settings;

// How far the temperature lies below the threshold, 0 where none was measured.
#[tactic(auto, unfolding(crate::specs::Compensation::dt))]
pub fn dt(settings: Settings, temperature: u16) -> u16
    ensures value { result ≡ Spec.dt settings temperature }
    ensures range { result ≤ 1_120 }
{
    if temperature == 0 {
        0
    } else {
        cold_threshold(settings).saturating_sub(temperature)
    }
}

// ADCGN in 32nds: DCGN as the cycles have raised it.
#[tactic(auto, using(crate::proofs::AgeLaws::aged_within), unfolding(crate::specs::Compensation::adcgn))]
fn adcgn(settings: Settings, cyct: u16) -> u32
    ensures value { result ≡ Spec.adcgn settings cyct }
    ensures range { result ≤ 31 * 380_867 }
{
    let quotient = (cyct / 16) as u32;
    let aged = tcgn(settings) as u32 * quotient * gaf(settings) as u32;
    dcgn(settings) as u32 * (32 + aged)
}

#[tactic(auto, unfolding(crate::specs::Compensation::rate_term))]
fn rate_term(settings: Settings, current: u16, temperature: u16, cyct: u16) -> u64
    ensures value { result ≡ Spec.rate_term settings current temperature cyct }
    ensures range { result ≤ 65_535 * (31 * 380_867) * 34_848 }
{
    let gain = adcgn(settings, cyct) as u64;
    let cold = tcgn(settings) as u64 * dt(settings, temperature) as u64;
    current as u64 * gain * (128 + cold)
}

#[tactic(auto, unfolding(crate::specs::Compensation::offset_term))]
fn offset_term(settings: Settings) -> u64
    ensures { result ≡ Spec.offset_term settings }
{
    131_072 * dcgn(settings) as u64 * dcoff(settings) as u64 * ilmd(settings) as u64
}

// DCMP, counts.
#[tactic(auto, unfolding(crate::specs::Compensation::dcmp))]
pub fn dcmp(settings: Settings, current: u16, temperature: u16, cyct: u16) -> u64
    ensures { result ≡ Spec.dcmp settings current temperature cyct }
{
    let rate = rate_term(settings, current, temperature, cyct);
    let offset = offset_term(settings);
    rate.saturating_sub(offset).div_ceil(1_048_576)
}

// A capacity less its compensation, at least 0.
pub fn compensated(capacity: u16, reduction: u64) -> u16
    ensures { result ≡ Spec.compensated capacity reduction }
{
    (capacity as u64).saturating_sub(reduction) as u16
}

// The floored, capped quotient that every time register is.
#[tactic(auto, unfolding(crate::specs::Compensation::minutes))]
pub fn minutes(numerator: u32, divisor: u16) -> u16
    ensures { result ≡ Spec.minutes numerator divisor }
{
    if divisor == 0 {
        65_535
    } else {
        (numerator / divisor as u32).min(65_535) as u16
    }
}
