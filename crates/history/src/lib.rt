// The claims over every list of calls. Each function does nothing; its contract is the claim.
#![tactic(auto)]

ghost use Rattle.history.specs.Claim.{Demand3, FromAnyGauge, StaysAccepted};
ghost use Rattle.history.specs.Rests.{RestsOfOne};

// Demand 3: every list of calls from a freshly opened gauge leaves what the history says.
pub fn demand_3()
    ensures { Demand3 }
{}

// The same from any accepted gauge.
pub fn from_any_gauge()
    ensures { FromAnyGauge }
{}

// Every call on an accepted gauge leaves an accepted one.
pub fn stays_accepted()
    ensures { StaysAccepted }
{}

// A rest of n windows leaves the gauge that n rests of one leave.
pub fn rests_of_one()
    ensures { RestsOfOne }
{}
