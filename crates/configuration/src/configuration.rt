// "Configuration": each meaning of the ten bytes at 0x76 to 0x7F is a function of the settings.
ghost use Rattle.std.specs.Prelude.{◌≡◌, ◌<◌, ◌≤◌, get_or};
ghost use Rattle.configuration.specs.Configuration as Spec;

use crate::settings::Settings;

// Where each byte stands, by the sheet's names.
const ILMD: usize = 0;

const SEDVF: usize = 1;

const SEDV1: usize = 2;

const ISLC: usize = 3;

const DMFSD: usize = 4;

const TAPER: usize = 5;

const PKCFG: usize = 6;

const ID3: usize = 7;

const DCOMP: usize = 8;

const TCOMP: usize = 9;

fn byte(settings: Settings, at: usize) -> u8
    requires { at < 10 }
    ensures { result ≡ get_or settings.bytes at 0 }
{
    settings.bytes[at]
}

pub fn ilmd(settings: Settings) -> u8
    ensures { result ≡ Spec.ilmd settings }
{
    byte(settings, ILMD)
}

pub fn design_capacity(settings: Settings) -> u16
    ensures { result ≡ Spec.design_capacity settings }
{
    256 * byte(settings, ILMD) as u16
}

pub fn edvf(settings: Settings) -> u16
    ensures value { result ≡ Spec.edvf settings }
    ensures range { result ≤ 4_088 }
{
    8 * (byte(settings, SEDVF) as u16 + 256)
}

pub fn e1(settings: Settings) -> u16
    ensures { result ≡ Spec.e1 settings }
{
    (8 * (byte(settings, SEDV1) as u16 + 256)).max(edvf(settings) + 32)
}

pub fn s0(settings: Settings) -> u16
    ensures value { result ≡ Spec.s0 settings }
    ensures range { result ≤ 510 }
{
    2 * byte(settings, ISLC) as u16
}

// DMF and SD, a gain and an offset: each is one quotient or remainder of a byte of its own, which a function shared by two would not make shorter.
pub fn dmf(settings: Settings) -> u8
    ensures value { result ≡ Spec.dmf settings }
    ensures range { result < 16 }
{
    byte(settings, DMFSD) / 16
}

pub fn sd(settings: Settings) -> u8
    ensures value { result ≡ Spec.sd settings }
    ensures range { result < 16 }
{
    byte(settings, DMFSD) % 16
}

pub fn taper(settings: Settings) -> u8
    ensures { result ≡ Spec.taper settings }
{
    byte(settings, TAPER)
}

// DCOMP as it is taken: the fixed 0x6C where PKCFG bit 1 is set.
#[tactic(auto, unfolding(crate::specs::Configuration::dcomp_taken))]
fn dcomp_taken(settings: Settings) -> u8
    ensures { result ≡ Spec.dcomp_taken settings }
{
    if byte(settings, PKCFG) / 2 % 2 == 1 {
        0x6C
    } else {
        byte(settings, DCOMP)
    }
}

pub fn dcgn(settings: Settings) -> u8
    ensures value { result ≡ Spec.dcgn settings }
    ensures range { result < 32 }
{
    dcomp_taken(settings) / 8
}

pub fn dcoff(settings: Settings) -> u8
    ensures value { result ≡ Spec.dcoff settings }
    ensures range { result < 8 }
{
    dcomp_taken(settings) % 8
}

pub fn tcgn(settings: Settings) -> u8
    ensures value { result ≡ Spec.tcgn settings }
    ensures range { result < 32 }
{
    byte(settings, TCOMP) / 8
}

pub fn toff(settings: Settings) -> u8
    ensures value { result ≡ Spec.toff settings }
    ensures range { result < 8 }
{
    byte(settings, TCOMP) % 8
}

pub fn gaf(settings: Settings) -> u8
    ensures value { result ≡ Spec.gaf settings }
    ensures range { result < 4 }
{
    byte(settings, ID3) % 4
}

pub fn cold_threshold(settings: Settings) -> u16
    ensures value { result ≡ Spec.cold_threshold settings }
    ensures range { result ≤ 1_120 }
{
    4 * (273 + toff(settings) as u16)
}

#[tactic(auto, using(crate::proofs::ModeLaws::opened_mode_is))]
pub fn opened_mode(settings: Settings) -> u8
    ensures { result ≡ Spec.opened_mode settings }
{
    byte(settings, PKCFG) / 128 * 128 + 64 + 4
}
