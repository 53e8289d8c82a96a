// Numbers as bytes, low byte first. A byte past a slice's end reads as 0, so that every read has an answer.
ghost use Rattle.std.specs.Prelude.{◌≡◌, ℕ, ◌+◌, ◌*◌, ◌≤◌, get_or};
ghost use Rattle.std.proofs.Common.{rules};
ghost use Rattle.numbers.specs.Little as Spec;

// A number of N bytes.
pub trait Little<const N: usize>: Copy {
    ghost number: { Self → ℕ };

    fn to_little(self) -> [u8; N]
        ensures { result ≡ Spec.little N (number self) };

    fn of_little(bytes: [u8; N]) -> Self
        ensures { number result ≡ Spec.number_at N 0 bytes.entry };

    // An array of N bytes is within what Rust lets an array be.
    ghost narrow: { N ≤ 8 };
}

impl Little<1> for u8 {
    ghost number = { λ n. n };

    fn to_little(self) -> [u8; 1] {
        u8::to_le_bytes(self)
    }

    fn of_little(bytes: [u8; 1]) -> u8
        ensures { result ≡ Spec.number_at 1 0 bytes }
    {
        u8::from_le_bytes(bytes)
    }

    ghost narrow = { Prim.search rules };
}

impl Little<2> for u16 {
    ghost number = { λ n. n };

    fn to_little(self) -> [u8; 2] {
        u16::to_le_bytes(self)
    }

    fn of_little(bytes: [u8; 2]) -> u16
        ensures { result ≡ Spec.number_at 2 0 bytes }
    {
        u16::from_le_bytes(bytes)
    }

    ghost narrow = { Prim.search rules };
}

impl Little<4> for u32 {
    ghost number = { λ n. n };

    fn to_little(self) -> [u8; 4] {
        u32::to_le_bytes(self)
    }

    fn of_little(bytes: [u8; 4]) -> u32
        ensures { result ≡ Spec.number_at 4 0 bytes }
    {
        u32::from_le_bytes(bytes)
    }

    ghost narrow = { Prim.search rules };
}

impl Little<8> for u64 {
    ghost number = { λ n. n };

    fn to_little(self) -> [u8; 8] {
        u64::to_le_bytes(self)
    }

    fn of_little(bytes: [u8; 8]) -> u64
        ensures { result ≡ Spec.number_at 8 0 bytes }
    {
        u64::from_le_bytes(bytes)
    }

    ghost narrow = { Prim.search rules };
}

// The pair whose bytes are these.
pub fn pair_of(low: u8, high: u8) -> u16
    ensures { result ≡ low + 256 * high }
{
    u16::from_le_bytes([low, high])
}

pub fn two(value: u16) -> [u8; 2]
    ensures { result ≡ Spec.little 2 value }
{
    value.to_little()
}

pub fn eight(value: u64) -> [u8; 8]
    ensures { result ≡ Spec.little 8 value }
{
    value.to_little()
}

pub fn byte_at(bytes: &[u8], place: usize) -> u8
    ensures { result ≡ get_or bytes.now place 0 }
{
    bytes.get(place).copied().unwrap_or(0)
}

// That many bytes from a place on.
pub fn bytes_at<const N: usize>(bytes: &[u8], place: u16) -> [u8; N]
    ensures { result ≡ Spec.bytes_at N place bytes.now }
{
    let mut found = [0; N];
    for at in 0..N {
        found[at] = byte_at(bytes, place as usize + at);
    }
    found
}

// The number at a place.
pub fn number_at<const N: usize, T: Little<N>>(bytes: &[u8], place: u16) -> T
    ensures { T.number result ≡ Spec.number_at N place bytes.now }
{
    T::of_little(bytes_at(bytes, place))
}

// The pair at a place.
pub fn two_at(bytes: &[u8], place: u16) -> u16
    ensures { result ≡ Spec.number_at 2 place bytes.now }
{
    number_at::<2, u16>(bytes, place)
}

// The four bytes at a place, as a number.
pub fn four_at(bytes: &[u8], place: u16) -> u32
    ensures { result ≡ Spec.number_at 4 place bytes.now }
{
    number_at::<4, u32>(bytes, place)
}

// The eight bytes at a place, as a number.
pub fn eight_at(bytes: &[u8], place: u16) -> u64
    ensures { result ≡ Spec.number_at 8 place bytes.now }
{
    number_at::<8, u64>(bytes, place)
}

// The ten bytes at a place.
pub fn ten_at(bytes: &[u8], place: u16) -> [u8; 10]
    ensures { result ≡ Spec.bytes_at 10 place bytes.now }
{
    bytes_at(bytes, place)
}
