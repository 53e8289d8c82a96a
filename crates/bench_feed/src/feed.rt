// The bench program fed its input byte by byte.
ghost use Rattle.std.specs.Prelude.{true, ◌≡◌, ℕ};
ghost use mathlib.Core.List.{List, [], flatten};
ghost use Rattle.bench_feed.specs.Feed as Spec;
ghost use Rattle.bench_feed.specs.Input.{printed_from, printed_of};
ghost use Rattle.bench_feed.specs.Printed.{printed};

use crate::first::{first_fed, first_output};
use crate::list::{line_output, listed_fed};
use crate::state::{Bench, Place, Step};
use bench_output::output::Output;
use gauge::opening::open;

impl Bench {
    // The bench pack opened, and no byte read. Whatever input is fed to it, and however it is cut, it prints what the
    // input as a whole prints.
    pub fn start() -> Bench
        ensures value { result ≡ Spec.start }
        ensures whole { (input : List ℕ) → printed_from result input ≡ printed input }
        ensures parts { (parts : List (List ℕ)) → printed_of result parts ≡ printed (flatten parts) }
    {
        let pack = [0x04u8, 0x5E, 0x77, 0x05, 0x21, 0x10, 0x00, 0x00, 0x6C, 0x15];
        let gauge = open(&pack).unwrap();
        let place = Place::First(Some(0));
        Bench { gauge, place }
    }

    // A further byte of the input.
    #[tactic(auto, unfolding(crate::specs::Feed::fed, crate::specs::Feed::fed_at))]
    pub fn fed(self, byte: u8) -> Step
        ensures { result ≡ Spec.fed self byte }
    {
        let Bench { gauge, place } = self;
        match place {
            Place::First(matched) => first_fed(gauge, matched, byte),
            Place::Listed { begun: _, reading } => listed_fed(gauge, reading, byte),
            Place::Ended => Step {
                bench: self,
                output: None,
            },
        }
    }

    // What is printed at the end of the input.
    #[tactic(auto, unfolding(crate::specs::Feed::last_output, crate::specs::Feed::last_output_at))]
    pub fn last_output(self) -> Option<Output>
        ensures { result ≡ Spec.last_output self }
    {
        let Bench { gauge, place } = self;
        match place {
            Place::First(matched) => Some(first_output(matched)),
            Place::Listed { begun, reading } => line_output(gauge, begun, reading),
            Place::Ended => None,
        }
    }

    // The first line was another, and nothing more is printed, whatever follows.
    #[tactic(auto, using(crate::proofs::EndedLaws::nothing_more), unfolding(crate::specs::Feed::is_ended, crate::specs::Feed::ended_at))]
    pub fn is_ended(self) -> bool
        ensures value { result ≡ Spec.is_ended self }
        ensures nothing { result ≡ true → (input : List ℕ) → printed_from self input ≡ [] }
    {
        matches!(self.place, Place::Ended)
    }
}
