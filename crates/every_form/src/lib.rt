// The gauge that saved bytes of every form hold.
#![tactic(auto)]

pub mod every_form;
