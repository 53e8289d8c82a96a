// "Charge from a rested cell".
ghost use Rattle.std.specs.Prelude.{◌≡◌, ◌≤◌, ℕ, ℤ, IfOk};
ghost use Rattle.estimate.specs.Estimate as Spec;
ghost use Rattle.permille.specs.Table.{permille};
ghost use Rattle.refusals.specs.Refusal.{Answers, left_by, number_of};

use crate::distance::{distance_from, estimated};
use gauge::state::Gauge;
use grains::grains::nac;
use permille::table::permille_in;
use refusals::Refusal;

// "an estimate .. and its signed distance from NAC".
#[derive(Clone, Copy, Debug, PartialEq, Eq)]
pub struct RestedEstimate {
    pub counts: u16,
    pub distance: i32,
}

// "at least 422 rest windows".
const LEAST_RESTS: u32 = 422;

// The permille by a voltage of a cell that has rested: 14, 15, 16.
fn rested_permille(gauge: Gauge, voltage: i32) -> Result<u16, Refusal>
    ensures permille { Answers result (Spec.estimate_refusal gauge voltage) (permille voltage) }
    ensures most { IfOk result (λ permille. permille ≤ 1_000) }
{
    if !gauge.accepted() {
        return Err(Refusal::Rejected);
    }
    if gauge.counters.rests < LEAST_RESTS {
        return Err(Refusal::NotRested);
    }
    match permille_in(voltage) {
        Some(permille) => Ok(permille),
        None => Err(Refusal::OutsideTable),
    }
}

// The gauge is a value: an estimate moves nothing.
pub fn estimate(gauge: Gauge, voltage: i32) -> Result<RestedEstimate, Refusal>
    ensures number { number_of result ≡ Spec.estimate_refusal gauge voltage }
    ensures estimate { (before : ℕ) → left_by result (λ e. e.counts) before ≡ Spec.estimate_after gauge voltage before }
    ensures distance { (before : ℤ) → left_by result (λ e. e.distance) before ≡ Spec.distance_after gauge voltage before }
{
    let permille = rested_permille(gauge, voltage)?;
    let counts = estimated(permille, gauge.charge.lmd);
    let distance = distance_from(nac(gauge.charge.held) as u16, counts);
    Ok(RestedEstimate { counts, distance })
}
