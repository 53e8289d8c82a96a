// "The fourteen numbers", in the order of the request's table, and those that later requests add.
#![tactic(auto)]

ghost use Rattle.std.specs.Prelude.{◌≡◌};
ghost use Rattle.refusals.specs.Refusal as Spec;

// Why a call is refused.
#[derive(Clone, Copy, Debug, PartialEq, Eq)]
pub enum Refusal {
    // "configuration not 10 bytes"
    ConfigurationLength = 1,
    // "ILMD 0"
    IlmdZero = 2,
    // "current range"
    CurrentRange = 3,
    // "voltage range"
    VoltageRange = 4,
    // "temperature range"
    TemperatureRange = 5,
    // "rest length"
    RestLength = 6,
    // "address not writable"
    NotWritable = 7,
    // "key neither 0xA9 nor 0x56"
    UnknownKey = 8,
    // "no command bit"
    NoCommandBit = 9,
    // "not carried"
    NotCarried = 10,
    // "WRTLMD with AR 0"
    WrtlmdZero = 11,
    // "count 0, or address + count > 128"
    RegisterRange = 12,
    // "place + count beyond the reply; save buffer not 41"
    BufferLength = 13,
    // "saved bytes or gauge value rejected"
    Rejected = 14,
    // "fewer than 422 rest windows"
    NotRested = 15,
    // "voltage outside the table"
    OutsideTable = 16,
}

impl Refusal {
    // Its number in the table.
    pub fn number(self) -> u32
        ensures { result ≡ Spec.number self }
    {
        self as u32
    }
}

// "success is 0".
pub const NONE: u32 = 0;

// The number that C is handed for an outcome: 0, or that of its refusal.
pub fn number_of(outcome: Result<(), Refusal>) -> u32
    ensures { result ≡ Spec.number_of outcome }
{
    match outcome {
        Ok(()) => NONE,
        Err(refusal) => refusal.number(),
    }
}
