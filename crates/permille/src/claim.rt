// What the table gives each voltage. The function does nothing; its contract is the claim.
ghost use Rattle.permille.specs.Claim.{TakesTheLower};

#[tactic(auto, using(crate::proofs::TableLaws::takes_the_lower))]
pub fn takes_the_lower()
    ensures { TakesTheLower }
{}
