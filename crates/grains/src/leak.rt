// "Grains and leak", the leak of a window.
ghost use Rattle.std.specs.Prelude.{◌≡◌, ◌≤◌};
ghost use Rattle.grains.specs.Leak as Spec;

use crate::grains::nac;

// "the band table", indexed by the temperature band.
const BAND_TABLE: [u8; 8] = [1, 2, 4, 8, 16, 32, 64, 128];

// The band rises at 1,092 and then every 40 quarter kelvins, the last time at 1,332.
#[tactic(auto, using(crate::proofs::LeakLaws::band_is))]
pub fn band(temperature: u16) -> usize
    ensures { result ≡ Spec.band temperature }
{
    if temperature < 1_092 {
        return 0;
    }
    if 1_332 <= temperature {
        return 7;
    }
    (temperature - 1_052) as usize / 40
}

#[tactic(auto, using(crate::proofs::LeakLaws::band_below), unfolding(crate::specs::Leak::weight))]
pub fn weight(temperature: u16) -> u8
    ensures { result ≡ Spec.weight temperature }
{
    BAND_TABLE[band(temperature)]
}

#[tactic(auto, unfolding(crate::specs::Leak::leak_rate))]
pub fn leak_rate(sd: u8, temperature: u16) -> u16
    ensures { result ≡ Spec.leak_rate sd temperature }
{
    sd as u16 * weight(temperature) as u16
}

// A leak never exceeds the charge held, at any rate that its type holds.
#[tactic(auto, using(crate::proofs::LeakLaws::leak_within), unfolding(crate::specs::Leak::leak))]
pub fn leak(held: u64, rate: u16) -> u64
    ensures value { result ≡ Spec.leak held rate }
    ensures within { result ≤ held }
{
    nac(held) * rate as u64
}
