// The leak of a rest. It costs the counts that are lost, not the windows.
ghost use Rattle.std.specs.Prelude.{true, ◌≡◌, ◌+◌, ◌-◌, ◌*◌, ◌≤◌};
ghost use Rattle.grains.specs.Grains.{grains_per_count, most_drain};
ghost use Rattle.grains.specs.Rest as Spec;

use crate::grains::{GRAINS_PER_COUNT, MOST_DRAIN, nac};
use crate::leak::leak;

// "SD × W" at its greatest: 15 × 128.
const MOST_RATE: u16 = 1_920;

// Whether 32 bits are enough for the leak of a window. 14 rejects every greater charge before a rest.
fn in_range(held: u64, rate: u16) -> bool
    ensures { result ≡ true → (held ≤ most_drain) × (rate ≤ 1_920) }
{
    held <= MOST_DRAIN && rate <= MOST_RATE
}

// Whole counts and the part of one.
fn grains_of(counts: u32, part: u32) -> u64
    ensures { result ≡ counts * grains_per_count + part }
{
    counts as u64 * GRAINS_PER_COUNT + part as u64
}

// What is held after the windows of a rest, in whole counts and the part of one. A step takes the windows that start with the same NAC. The last of
// them loses a count, unless the rest ends before. No `for`: how many steps there are is known when they are done.
fn held_after(held: u64, windows: u32, rate: u32) -> u64
    requires { (held ≤ most_drain) × (rate ≤ 1_920) }
    ensures { result ≡ held - Spec.rest_leak windows rate held }
{
    let mut counts = nac(held) as u32;
    let mut part = (held % GRAINS_PER_COUNT) as u32;
    let mut grains = counts * rate;
    let mut left = windows;
    while 0 < grains {
        let more = part / grains;
        if left <= more {
            return grains_of(counts, part - left * grains);
        }
        part = part % grains + (GRAINS_PER_COUNT as u32 - grains);
        counts -= 1;
        grains -= rate;
        left -= more + 1;
    }
    grains_of(counts, part)
}

// What is held after the windows of a rest out of that range, which are taken one by one.
fn held_after_each(held: u64, windows: u32, rate: u16) -> u64
    ensures value { result ≡ held - Spec.rest_leak windows rate held }
    ensures within { result ≤ held }
{
    let mut rested = held;
    for _ in 0..windows {
        let grains = leak(rested, rate);
        if grains == 0 {
            return rested;
        }
        rested -= grains;
    }
    rested
}

// What the windows of a rest lose together. The first is taken by itself, so that a rest of one makes no step.
pub fn rest_leak(held: u64, windows: u32, rate: u16) -> u64
    ensures value { result ≡ Spec.rest_leak windows rate held }
    ensures within { result ≤ held }
{
    if windows == 0 {
        return 0;
    }
    let first = leak(held, rate);
    if windows == 1 {
        return first;
    }
    if in_range(held, rate) {
        held - held_after(held - first, windows - 1, rate as u32)
    } else {
        held - held_after_each(held - first, windows - 1, rate)
    }
}
