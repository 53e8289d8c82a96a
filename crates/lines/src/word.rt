// A word read byte by byte: "an optional minus and digits". Leading zeros have no greatest length, so a word is not kept: what is
// kept is its magnitude, which stops one past the range.
ghost use Rattle.std.specs.Prelude.{◌≡◌};
ghost use Rattle.lines.specs.Number.{ranged};
ghost use Rattle.lines.specs.Word as Spec;

// What is known of a word after some of its bytes.
#[derive(Clone, Copy, Debug, PartialEq, Eq)]
pub enum Word {
    Empty,
    // a minus alone
    Minus,
    // no Option: a magnitude has a sign, whichever it is
    Digits { negative: bool, magnitude: u64 },
    // no whole number, whatever follows
    Other,
}

// A further digit of a magnitude.
#[tactic(auto, unfolding(crate::specs::Word::grown))]
fn grown(magnitude: u64, digit: u8) -> u64
    ensures { result ≡ Spec.grown magnitude digit }
{
    magnitude
        .saturating_mul(10)
        .saturating_add(u64::from(digit))
        .min(2_147_483_649)
}

#[tactic(auto, unfolding(crate::specs::Word::digit_fed))]
fn digit_fed(negative: bool, magnitude: u64, byte: u8) -> Word
    ensures { result ≡ Spec.digit_fed negative magnitude byte }
{
    match byte {
        b'0'..=b'9' => Word::Digits {
            negative,
            magnitude: grown(magnitude, byte - b'0'),
        },
        _ => Word::Other,
    }
}

#[tactic(auto, unfolding(crate::specs::Word::first_fed))]
fn first_fed(byte: u8) -> Word
    ensures { result ≡ Spec.first_fed byte }
{
    match byte {
        b'-' => Word::Minus,
        _ => digit_fed(false, 0, byte),
    }
}

// The number of a sign and a magnitude, from −2,147,483,648 to 2,147,483,647.
#[tactic(auto, unfolding(crate::specs::Number::ranged))]
fn within_range(negative: bool, magnitude: u64) -> Option<i32>
    ensures { result ≡ ranged negative magnitude }
{
    let value = i64::try_from(magnitude).ok()?;
    i32::try_from(if negative { -value } else { value }).ok()
}

impl Word {
    // A further byte of the word.
    #[tactic(auto, unfolding(crate::specs::Word::word_fed))]
    pub fn fed(self, byte: u8) -> Word
        ensures { result ≡ Spec.word_fed self byte }
    {
        match self {
            Word::Empty => first_fed(byte),
            Word::Minus => digit_fed(true, 0, byte),
            Word::Digits {
                negative,
                magnitude,
            } => digit_fed(negative, magnitude, byte),
            Word::Other => Word::Other,
        }
    }

    // What the word is read as, if it ends here: none where it is no whole number, or one out of range.
    #[tactic(auto, unfolding(crate::specs::Word::word_number))]
    pub fn number(self) -> Option<i32>
        ensures { result ≡ Spec.word_number self }
    {
        match self {
            Word::Digits {
                negative,
                magnitude,
            } => within_range(negative, magnitude),
            Word::Empty | Word::Minus | Word::Other => None,
        }
    }
}
