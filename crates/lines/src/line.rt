// A line read byte by byte: three whole numbers, "single spaces between".
ghost use Rattle.std.specs.Prelude.{List, ◌≡◌, ℕ};
ghost use Rattle.lines.specs.Line.{line};
ghost use Rattle.lines.specs.Reading as Spec;

use crate::word::Word;

// What is known of a line after some of its bytes: the words that ended and the one that goes on.
#[derive(Clone, Copy, Debug, PartialEq, Eq)]
pub enum Reading {
    First(Word),
    Second(Word, Word),
    Third(Word, Word, Word),
    // more than three words
    More,
}

impl Reading {
    // A line of which no byte is read. Whatever bytes are fed to it, it is read as they are together.
    #[tactic(auto, using(crate::proofs::LineLaws::line_read))]
    pub fn start() -> Reading
        ensures value { result ≡ Spec.start }
        ensures reads { (bytes : List ℕ) → Spec.read_as (Spec.fed_all result bytes) ≡ line bytes }
    {
        Reading::First(Word::Empty)
    }

    // The space that ends a word.
    #[tactic(auto, unfolding(crate::specs::Reading::spaced))]
    fn spaced(self) -> Reading
        ensures { result ≡ Spec.spaced self }
    {
        match self {
            Reading::First(a) => Reading::Second(a, Word::Empty),
            Reading::Second(a, b) => Reading::Third(a, b, Word::Empty),
            Reading::Third(_, _, _) | Reading::More => Reading::More,
        }
    }

    // A byte of the word that goes on.
    #[tactic(auto, unfolding(crate::specs::Reading::goes_on))]
    fn word_fed(self, byte: u8) -> Reading
        ensures { result ≡ Spec.goes_on self byte }
    {
        match self {
            Reading::First(a) => Reading::First(a.fed(byte)),
            Reading::Second(a, b) => Reading::Second(a, b.fed(byte)),
            Reading::Third(a, b, c) => Reading::Third(a, b, c.fed(byte)),
            Reading::More => Reading::More,
        }
    }

    // A further byte of the line.
    #[tactic(auto, unfolding(crate::specs::Reading::fed))]
    pub fn fed(self, byte: u8) -> Reading
        ensures { result ≡ Spec.fed self byte }
    {
        match byte {
            b' ' => self.spaced(),
            _ => self.word_fed(byte),
        }
    }

    // What the line is read as, if it ends here: none where it is not three whole numbers within the range.
    #[tactic(auto, unfolding(crate::specs::Reading::read_as, crate::specs::Line::joined))]
    pub fn line(self) -> Option<(i32, i32, i32)>
        ensures { result ≡ Spec.read_as self }
    {
        let Reading::Third(a, b, c) = self else {
            return None;
        };
        Some((a.number()?, b.number()?, c.number()?))
    }
}
