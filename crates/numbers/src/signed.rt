// A signed number taken apart: direction and magnitude. No other file reads a sign.
ghost use Rattle.std.specs.Prelude.{◌≡◌};
ghost use Rattle.numbers.specs.Signed as Spec;

#[derive(Clone, Copy, Debug, PartialEq, Eq)]
pub struct Signed {
    // no Option: a number has a magnitude in either direction
    pub negative: bool,
    pub magnitude: u32,
}

pub fn take_apart(number: i32) -> Signed
    ensures { result ≡ Spec.taken_apart number }
{
    Signed {
        negative: number < 0,
        magnitude: number.unsigned_abs(),
    }
}

// The number, or 0 where it is below.
pub fn at_least_zero(number: i32) -> u32
    ensures { result ≡ Spec.at_least_zero number }
{
    number.max(0).cast_unsigned()
}
