// What ageing leaves as it was, and how large its term becomes. The functions do nothing; their contracts are the claims.
ghost use Rattle.compensation.specs.Claim as Claim;

#[tactic(auto, using(crate::proofs::AgeLaws::unaged_as_before))]
pub fn unaged_as_before()
    ensures { Claim.UnagedAsBefore }
{}

#[tactic(auto, using(crate::proofs::AgeLaws::greatest_rate_term))]
pub fn greatest_rate_term()
    ensures { Claim.GreatestRateTerm }
{}
