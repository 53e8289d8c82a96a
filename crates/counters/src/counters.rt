// The counters of a gauge, each moved by windows, rests and commands.
ghost use Rattle.std.specs.Prelude.{◌≡◌};
ghost use Rattle.counters.specs.Counters as Spec;

use crate::cycles::Cycles;
use command::command::{Command, Reset};
use sample::current::Current;

#[derive(Clone, Copy, Debug, PartialEq, Eq)]
pub struct Counters {
    // rest windows since the last window with c not 0, since opening or a reset
    pub rests: u32,
    // CYCT and its drain
    pub cycles: Cycles,
}

impl Counters {
    // Nothing counted yet: opening.
    #[tactic(auto, unfolding(crate::specs::Counters::opened_counters))]
    pub fn opened() -> Counters
        ensures { result ≡ Spec.opened_counters }
    {
        Counters {
            rests: 0,
            cycles: Cycles::none(),
        }
    }

    // A rest of a number of windows: the count "stops at 4,294,967,295".
    #[tactic(auto, unfolding(crate::specs::Counters::counters_rested))]
    pub fn rested(mut self, windows: u32) -> Counters
        ensures { result ≡ Spec.counters_rested windows self }
    {
        self.rests = self.rests.saturating_add(windows);
        self
    }

    // A window with the counted current c, and the LMD before it.
    #[tactic(auto, unfolding(crate::specs::Counters::counters_moved))]
    pub fn moved(mut self, lmd: u16, current: Current) -> Counters
        ensures { result ≡ Spec.counters_moved lmd current self }
    {
        self.cycles = self.cycles.moved(lmd, current);
        if current.magnitude != 0 {
            self.rests = 0;
        }
        self
    }

    // Settings leave the counters; resets clear the count of rest windows, FRST the cycles too.
    #[tactic(auto, unfolding(crate::specs::Counters::counters_obeyed))]
    pub fn obeyed(self, command: Command) -> Counters
        ensures { result ≡ Spec.counters_obeyed command self }
    {
        match command {
            Command::Setting(_) => self,
            Command::Reset(Reset::Prst) => Counters { rests: 0, ..self },
            Command::Reset(Reset::Frst) => Counters::opened(),
        }
    }

    // What 14 asks of the counters.
    #[tactic(auto, unfolding(crate::specs::Counters::counters_accepted))]
    pub fn accepted(self) -> bool
        ensures { result ≡ Spec.counters_accepted self }
    {
        self.cycles.accepted()
    }
}
