// The registers: definitions of what each shows, of the map and of a read. The code stands in `looks`.
#![tactic(auto)]

// The addresses 0x00 to 0x7F.
pub const REGISTER_COUNT: usize = 128;
