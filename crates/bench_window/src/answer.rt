// A line of the list: the window that it asks for, and what is printed for it.
ghost use Rattle.std.specs.Prelude.{◌≡◌};
ghost use Rattle.bench_window.specs.Answer as Spec;

use crate::shown::registers_output;
use bench_output::output::Output;
use gauge::state::Gauge;

// The gauge after a line, and what is printed for it.
#[derive(Clone, Copy, Debug, PartialEq, Eq)]
pub struct Answered {
    pub gauge: Gauge,
    pub output: Output,
}

// A line as it is read: its window, or none where it is not three whole numbers.
#[tactic(auto, unfolding(crate::specs::Answer::line_answered))]
pub fn answer_line(gauge: Gauge, line: Option<(i32, i32, i32)>) -> Answered
    ensures { result ≡ Spec.line_answered gauge line }
{
    let Some((current, voltage, temperature)) = line else {
        return Answered {
            gauge,
            output: Output::Unread,
        };
    };
    match gauge.window(current, voltage, temperature) {
        Ok(after) => Answered {
            gauge: after,
            output: registers_output(after),
        },
        Err(refusal) => Answered {
            gauge,
            output: Output::Refused(refusal.number()),
        },
    }
}
