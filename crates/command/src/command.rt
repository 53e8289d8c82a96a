// "Keys at CTRL obey the highest numbered set bit of MODE among 5, 4, 3, 1, 0".
ghost use Rattle.std.specs.Prelude.{◌≡◌, ℕ};
ghost use Rattle.command.specs.Command as Spec;

use refusals::Refusal;

// What a host sets by hand.
#[derive(Clone, Copy, Debug, PartialEq, Eq)]
pub enum Setting {
    Wrtnac,
    Done,
    Wrtlmd,
}

// What puts the gauge as opened, in part or whole.
#[derive(Clone, Copy, Debug, PartialEq, Eq)]
pub enum Reset {
    Prst,
    Frst,
}

// The commands by their kinds.
#[derive(Clone, Copy, Debug, PartialEq, Eq)]
pub enum Command {
    Setting(Setting),
    Reset(Reset),
}

// Bits 5, 4, 3, 1 and 0 of MODE.
const COMMAND_BITS: u8 = 0x3B;

// The number of the highest command bit that is set, if one is.
pub fn highest_command_bit(mode: u8) -> Option<u32>
    ensures { result ≡ Spec.command_bit mode }
{
    let bits = COMMAND_BITS & mode;
    if bits == 0 {
        return None;
    }
    Some(31 - u32::leading_zeros(bits as u32))
}

// The rows of key 0xA9.
fn decide_a9(bit: Option<u32>) -> Result<Command, Refusal>
    ensures { (ar : ℕ) → result ≡ Spec.decide_bit Spec.commands 0xA9 bit ar }
{
    match bit {
        None => Err(Refusal::NoCommandBit),
        Some(5) => Ok(Command::Setting(Setting::Wrtnac)),
        Some(4) => Ok(Command::Setting(Setting::Done)),
        Some(3) => Ok(Command::Reset(Reset::Prst)),
        Some(1) => Ok(Command::Reset(Reset::Frst)),
        Some(_) => Err(Refusal::NotCarried),
    }
}

// The row of key 0x56.
fn decide_56(bit: Option<u32>, ar: u16) -> Result<Command, Refusal>
    ensures { result ≡ Spec.decide_bit Spec.commands 0x56 bit ar }
{
    match bit {
        None => Err(Refusal::NoCommandBit),
        Some(0) if ar == 0 => Err(Refusal::WrtlmdZero),
        Some(0) => Ok(Command::Setting(Setting::Wrtlmd)),
        Some(_) => Err(Refusal::NotCarried),
    }
}

// What a key at CTRL means with MODE and AR.
pub fn decide(key: u8, mode: u8, ar: u16) -> Result<Command, Refusal>
    ensures { result ≡ Spec.decide key mode ar }
{
    if key == 0xA9 {
        return decide_a9(highest_command_bit(mode));
    }
    if key == 0x56 {
        return decide_56(highest_command_bit(mode), ar);
    }
    Err(Refusal::UnknownKey)
}

impl Command {
    // Its number, as a preview hands it out.
    pub fn number(self) -> u8
        ensures { result ≡ Spec.command_number self }
    {
        match self {
            Command::Setting(Setting::Wrtnac) => 1,
            Command::Setting(Setting::Done) => 2,
            Command::Reset(Reset::Prst) => 3,
            Command::Reset(Reset::Frst) => 4,
            Command::Setting(Setting::Wrtlmd) => 5,
        }
    }
}

// No command is obeyed. A number, since C is handed one.
const NO_COMMAND: u8 = 0;

// The number of the command that a key at CTRL obeys, 0 where it is refused.
pub fn command_of(key: u8, mode: u8, ar: u16) -> u8
    ensures { result ≡ Spec.command_of (Spec.decide key mode ar) }
{
    match decide(key, mode, ar) {
        Ok(command) => command.number(),
        Err(_) => NO_COMMAND,
    }
}
