// The law of a step. The function does nothing; its contract is the claim.
ghost use Rattle.charge.specs.Step.{SameNac};

// Windows of a rest that start with the same NAC are one step.
#[tactic(auto, using(crate::proofs::RestLaws::same_nac))]
pub fn same_nac()
    ensures { SameNac }
{}
