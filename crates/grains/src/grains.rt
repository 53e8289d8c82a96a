// "Grains and leak", the sums: charge in whole grains, unsigned. Every sum is total; none wraps.
ghost use Rattle.std.specs.Prelude.{◌≡◌};
ghost use Rattle.grains.specs.Grains as Spec;

// "G".
pub const GRAINS_PER_COUNT: u64 = 135_000_000;

// What a unit of current moves in a window.
pub const GRAINS_PER_UNIT: u64 = 192_000;

// "65,535 × G".
pub const MOST_DRAIN: u64 = 65_535 * GRAINS_PER_COUNT;

pub fn nac(held: u64) -> u64
    ensures { result ≡ Spec.nac held }
{
    held / GRAINS_PER_COUNT
}

pub fn grains_of_counts(counts: u16) -> u64
    ensures { result ≡ Spec.grains_of_counts counts }
{
    counts as u64 * GRAINS_PER_COUNT
}

pub fn grains_of_current(units: u16) -> u64
    ensures { result ≡ Spec.grains_of_current units }
{
    GRAINS_PER_UNIT * units as u64
}

pub fn saturating_sum(grains: u64, more: u64) -> u64
    ensures { result ≡ Spec.saturating_sum grains more }
{
    grains.saturating_add(more)
}

pub fn saturating_difference(grains: u64, less: u64) -> u64
    ensures { result ≡ Spec.saturating_difference grains less }
{
    grains.saturating_sub(less)
}

pub fn passes(drain: u64) -> bool
    ensures { result ≡ Spec.passes drain }
{
    MOST_DRAIN < drain
}
