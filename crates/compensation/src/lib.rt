// The compensation for current, temperature and age, and the quotient that the time registers are.
#![tactic(auto)]

pub mod claim;
pub mod compensation;
