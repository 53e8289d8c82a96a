// What a preview shows. The function does nothing; its contract is the claim.
ghost use Rattle.preview.specs.Claim.{Shows};

// The number of the command that is obeyed, and the registers of the gauge after it.
pub fn shows()
    ensures { Shows }
{}
