// Demand 3 said of the saved bytes and the calls from C. The functions do nothing; their contracts are the claims.
#![tactic(auto)]

ghost use Rattle.drive.specs.Claim.{EveryDrive, FromOpening, FromSaved};
ghost use Rattle.drive.specs.NewestForm.{NewestReads};
ghost use Rattle.drive.specs.OlderForms.{Form1Reads, Form1Shows, Form2Reads, Form3Reads, Form4Reads};
ghost use Rattle.drive.specs.Preview.{PreviewOfCopy};
ghost use Rattle.drive.specs.Rests.{RestCallsOfOne};
ghost use Rattle.drive.specs.Update.{Converted, ConvertedSame, FromUpdate};

pub fn every_drive()
    ensures { EveryDrive }
{}

pub fn from_opening()
    ensures { FromOpening }
{}

pub fn from_saved()
    ensures { FromSaved }
{}

pub fn form_1_reads()
    ensures { Form1Reads }
{}

pub fn form_1_shows()
    ensures { Form1Shows }
{}

pub fn form_2_reads()
    ensures { Form2Reads }
{}

pub fn form_3_reads()
    ensures { Form3Reads }
{}

pub fn form_4_reads()
    ensures { Form4Reads }
{}

pub fn newest_reads()
    ensures { NewestReads }
{}

pub fn converted()
    ensures { Converted }
{}

pub fn converted_same()
    ensures { ConvertedSame }
{}

pub fn from_update()
    ensures { FromUpdate }
{}

pub fn preview_of_copy()
    ensures { PreviewOfCopy }
{}

pub fn rest_calls_of_one()
    ensures { RestCallsOfOne }
{}
