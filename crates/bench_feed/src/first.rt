// The first line: "Another first line prints `names` in place of the heading and ends it."
ghost use Rattle.std.specs.Prelude.{◌≡◌};
ghost use Rattle.bench_feed.specs.First as Spec;

use crate::list::fresh;
use crate::state::{Bench, NEWLINE, Place, Step};
use bench_output::output::Output;
use gauge::state::Gauge;

// The names line.
const NAMES: [u8; 5] = *b"c v t";

// How many bytes of the first line are as the names line has them: all of it.
const WHOLE: u8 = 5;

// A further byte of the first line.
#[tactic(auto, unfolding(crate::specs::First::names_fed))]
fn names_fed(matched: Option<u8>, byte: u8) -> Option<u8>
    ensures { result ≡ Spec.names_fed matched byte }
{
    let so_far = matched?;
    if so_far < WHOLE && byte == NAMES[usize::from(so_far)] {
        Some(so_far + 1)
    } else {
        None
    }
}

// What the end of the first line prints.
#[tactic(auto, unfolding(crate::specs::First::first_output))]
pub fn first_output(matched: Option<u8>) -> Output
    ensures { result ≡ Spec.first_output matched }
{
    match matched {
        Some(WHOLE) => Output::Heading,
        _ => Output::Names,
    }
}

#[tactic(auto, unfolding(crate::specs::First::after_first))]
fn after_first(matched: Option<u8>) -> Place
    ensures { result ≡ Spec.after_first matched }
{
    match matched {
        Some(WHOLE) => fresh(),
        _ => Place::Ended,
    }
}

// A byte in the first line, the newline that ends it among them.
#[tactic(auto, unfolding(crate::specs::First::fed_first))]
pub fn first_fed(gauge: Gauge, matched: Option<u8>, byte: u8) -> Step
    ensures { result ≡ Spec.fed_first gauge matched byte }
{
    if byte == NEWLINE {
        let place = after_first(matched);
        let output = Some(first_output(matched));
        return Step {
            bench: Bench { gauge, place },
            output,
        };
    }
    let place = Place::First(names_fed(matched, byte));
    Step {
        bench: Bench { gauge, place },
        output: None,
    }
}
