// A line of the list below the first line.
ghost use Rattle.std.specs.Prelude.{◌≡◌};
ghost use Rattle.bench_feed.specs.Listed as Spec;

use crate::state::{Bench, NEWLINE, Place, Step};
use bench_output::output::Output;
use bench_window::answer::{Answered, answer_line};
use gauge::state::Gauge;
use lines::line::Reading;

// A line of the list is to begin.
pub fn fresh() -> Place
    ensures { result ≡ Spec.fresh }
{
    Place::Listed {
        begun: false,
        reading: Reading::start(),
    }
}

// A byte in a line of the list, the newline that ends it among them.
#[tactic(auto, unfolding(crate::specs::Listed::fed_listed))]
pub fn listed_fed(gauge: Gauge, reading: Reading, byte: u8) -> Step
    ensures { result ≡ Spec.fed_listed gauge reading byte }
{
    if byte == NEWLINE {
        let Answered { gauge, output } = answer_line(gauge, reading.line());
        return Step {
            bench: Bench {
                gauge,
                place: fresh(),
            },
            output: Some(output),
        };
    }
    let place = Place::Listed {
        begun: true,
        reading: reading.fed(byte),
    };
    Step {
        bench: Bench { gauge, place },
        output: None,
    }
}

// What the end of the input prints in a line of the list: "A last newline begins no further line."
#[tactic(auto, unfolding(crate::specs::Listed::line_output))]
pub fn line_output(gauge: Gauge, begun: bool, reading: Reading) -> Option<Output>
    ensures { result ≡ Spec.line_output gauge begun reading }
{
    if begun {
        Some(answer_line(gauge, reading.line()).output)
    } else {
        None
    }
}
