// What the charge and the flags become by what a window reaches. What it reaches is decided by `is_full` and `ending_of`.
ghost use Rattle.std.specs.Prelude.{◌≡◌};
ghost use Rattle.reached.specs.Reached as Spec;

use crate::ending::Ending;
use charge::charge::Charge;
use flags::flags::Flags;

// Full, if the window is full.
#[tactic(auto, unfolding(crate::specs::Reached::filled_if))]
pub fn filled_if(charge: Charge, full: bool) -> Charge
    ensures { result ≡ Spec.filled_if full charge }
{
    if full {
        return charge.filled();
    }
    charge
}

// What the end-of-discharge voltages make of the charge.
#[tactic(auto, unfolding(crate::specs::Reached::charge_ended))]
pub fn charge_ended(charge: Charge, ending: Ending) -> Charge
    ensures { result ≡ Spec.charge_ended ending charge }
{
    match ending {
        Ending::Above => charge,
        Ending::Edvf => charge.emptied(),
        Ending::Edv1 => charge.without_run(),
        Ending::Qualified => charge.taught(),
    }
}

// What the end-of-discharge voltages make of the flags.
#[tactic(auto, unfolding(crate::specs::Reached::flags_ended))]
pub fn flags_ended(flags: Flags, ending: Ending) -> Flags
    ensures { result ≡ Spec.flags_ended ending flags }
{
    match ending {
        Ending::Above => flags,
        Ending::Edvf => flags.at_edvf(),
        Ending::Edv1 => flags.at_edv1(),
        Ending::Qualified => flags.at_taught(),
    }
}
