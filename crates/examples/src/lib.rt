// Computed rows: what the request marks to be proved, its table's examples, and rules that none of those pins. The functions do nothing;
// their contracts keep the claims in the check.
#![tactic(auto)]

ghost use Rattle.examples.specs.AcceptedRows.{AcceptedRows};
ghost use Rattle.examples.specs.CycleRows.{CycleRows};
ghost use Rattle.examples.specs.EstimateRows.{EstimateRows};
ghost use Rattle.examples.specs.Examples.{Examples};
ghost use Rattle.examples.specs.FormRows.{FormRows};
ghost use Rattle.examples.specs.Numbers.{Numbers};
ghost use Rattle.examples.specs.PreviewRows.{PreviewRows};
ghost use Rattle.examples.specs.RestRows.{RestRows};
ghost use Rattle.examples.specs.Rows.{Rows};
ghost use Rattle.examples.specs.StandbyRows.{StandbyRows};

pub fn proved_examples()
    ensures { Examples }
{}

pub fn proved_numbers()
    ensures { Numbers }
{}

pub fn proved_rows()
    ensures { Rows }
{}

pub fn proved_standby()
    ensures { StandbyRows }
{}

pub fn proved_forms()
    ensures { FormRows }
{}

pub fn proved_previews()
    ensures { PreviewRows }
{}

pub fn proved_rests()
    ensures { RestRows }
{}

pub fn proved_estimates()
    ensures { EstimateRows }
{}

pub fn proved_cycles()
    ensures { CycleRows }
{}

pub fn proved_accepted()
    ensures { AcceptedRows }
{}
