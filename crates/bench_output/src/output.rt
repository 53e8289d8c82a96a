// What the bench program prints at the end of a line.
#[derive(Clone, Copy, Debug, PartialEq, Eq)]
pub enum Output {
    Heading,
    // the first line is another than the names line
    Names,
    // a line that is not three whole numbers
    Unread,
    // the number of a refusal
    Refused(u32),
    // the registers after a window
    Registers {
        nac: u16,
        lmd: u16,
        rsoc: u8,
        flags: u8,
    },
}
