// What a qualified run teaches.
ghost use Rattle.std.specs.Prelude.{◌≡◌, min};
ghost use Rattle.grains.specs.Learning as Spec;

use crate::grains::{GRAINS_PER_COUNT, MOST_DRAIN};

// For every drain: one above 65,535 × G measures more than 65,535 counts, and its sixteenfold need not fit.
fn measured_capacity(drain: u64) -> u16
    ensures { result ≡ min (Spec.measured_capacity drain) Spec.most_counts }
{
    let drain = drain.min(MOST_DRAIN);
    let measured = 16 * drain / (15 * GRAINS_PER_COUNT);
    measured.min(65_535) as u16
}

#[tactic(auto, unfolding(crate::specs::Learning::learned))]
pub fn learned(lmd: u16, drain: u64) -> u16
    ensures { result ≡ Spec.learned lmd drain }
{
    measured_capacity(drain).max(lmd - lmd / 8)
}
