// "c (signed)": a current in two bytes, as two's complement.
ghost use Rattle.std.specs.Prelude.{◌≡◌};
ghost use Rattle.form.specs.Signed as Spec;

use sample::current::Current;

#[tactic(auto, unfolding(crate::specs::Signed::signed_pair))]
pub fn signed_pair(current: Current) -> u16
    ensures { result ≡ Spec.signed_pair current }
{
    if current.charging {
        current.magnitude
    } else {
        current.magnitude.wrapping_neg()
    }
}

// By direction and magnitude.
#[tactic(auto, unfolding(crate::specs::Signed::current_of))]
pub fn current_of(pair: u16) -> Current
    ensures { result ≡ Spec.current_of pair }
{
    let number = pair.cast_signed();
    Current {
        charging: 0 < number,
        magnitude: number.unsigned_abs(),
    }
}
