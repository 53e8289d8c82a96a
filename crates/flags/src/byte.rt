// The FLAGS byte, put together and taken apart.
ghost use Rattle.std.specs.Prelude.{◌≡◌, ◌≤◌};
ghost use Rattle.flags.specs.Byte as Spec;

use crate::flags::Flags;

// A flag's weight where it is set, else 0.
fn flag_at(weight: u8, flag: bool) -> u8
    ensures value { result ≡ Spec.flag_at weight flag }
    ensures range { result ≤ weight }
{
    if flag { weight } else { 0 }
}

#[tactic(auto, unfolding(crate::specs::Byte::flags_byte))]
pub fn flags_byte(chgs: bool, vdq: bool, flags: Flags) -> u8
    ensures { result ≡ Spec.flags_byte chgs vdq flags }
{
    flag_at(128, chgs)
        + flag_at(16, flags.ci)
        + flag_at(4, vdq)
        + flag_at(2, flags.edv1)
        + flag_at(1, flags.edvf)
}

#[tactic(auto, unfolding(crate::specs::Byte::flags_of))]
pub fn flags_of(byte: u8) -> Flags
    ensures { result ≡ Spec.flags_of byte }
{
    Flags {
        ci: byte / 16 % 2 == 1,
        edv1: byte / 2 % 2 == 1,
        edvf: byte / 1 % 2 == 1,
    }
}

pub fn vdq_of(byte: u8) -> bool
    ensures { result ≡ Spec.vdq_of byte }
{
    byte / 4 % 2 == 1
}

// "CHGS exactly if c > 0, other flag bits 0".
#[tactic(auto, unfolding(crate::specs::Byte::flags_fit))]
pub fn flags_fit(byte: u8, charging: bool) -> bool
    ensures { result ≡ Spec.flags_fit byte charging }
{
    if byte / 32 % 4 != 0 {
        return false;
    }
    if byte / 8 % 2 != 0 {
        return false;
    }
    if charging {
        byte / 128 == 1
    } else {
        byte / 128 == 0
    }
}
