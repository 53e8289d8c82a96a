// The charge held, the learned capacity and the run, and what opening and the steps of a window make of them.
ghost use Rattle.std.specs.Prelude.{◌≡◌};
ghost use Rattle.configuration.specs.Terms.{terms_of};
ghost use Rattle.charge.specs.Charge as Spec;

use configuration::configuration::design_capacity;
use configuration::settings::Settings;
use grains::grains::{grains_of_counts, grains_of_current, saturating_difference, saturating_sum};
use grains::leak::leak;
use grains::learning::learned;
use grains::run::Run;
use sample::current::Current;

#[derive(Clone, Copy, Debug, PartialEq, Eq)]
pub struct Charge {
    // h, grains
    pub held: u64,
    // LMD, counts
    pub lmd: u16,
    // VDQ and DCR
    pub run: Run,
}

// A run over the counted current: charging ends it, and its drain must not pass.
#[tactic(auto, unfolding(crate::specs::Charge::run_moved))]
fn run_moved(run: Run, charging: bool, drawn: u64) -> Run
    ensures { result ≡ Spec.run_moved charging drawn run }
{
    if charging {
        Run::none()
    } else {
        run.drained(drawn).unless_passed()
    }
}

// What is held over the counted current. An empty stop is where the difference stops at 0.
#[tactic(auto, using(crate::proofs::ChargeLaws::stop_is_difference), unfolding(crate::specs::Charge::held_moved))]
fn held_moved(held: u64, current: Current) -> u64
    ensures { result ≡ Spec.held_moved current held }
{
    let raised = saturating_sum(held, grains_of_current(current.charge_current()));
    saturating_difference(raised, grains_of_current(current.discharge_current()))
}

impl Charge {
    #[tactic(auto, unfolding(crate::specs::Charge::opened_charge))]
    pub fn opened(settings: Settings) -> Charge
        ensures { result ≡ Spec.opened_charge (terms_of settings) }
    {
        Charge {
            held: 0,
            lmd: design_capacity(settings),
            run: Run::none(),
        }
    }

    // The leak of one window.
    #[tactic(auto, unfolding(crate::specs::Charge::leaked))]
    pub fn leaked(mut self, rate: u16) -> Charge
        ensures { result ≡ Spec.leaked rate self }
    {
        let grains = leak(self.held, rate);
        self.held = saturating_difference(self.held, grains);
        self.run = self.run.drained(grains);
        self
    }

    // The counted current of one window.
    #[tactic(auto, unfolding(crate::specs::Charge::moved))]
    pub fn moved(mut self, current: Current) -> Charge
        ensures { result ≡ Spec.moved current self }
    {
        let drawn = grains_of_current(current.discharge_current());
        self.held = held_moved(self.held, current);
        self.run = run_moved(self.run, current.charging, drawn);
        self
    }

    // Full.
    #[tactic(auto, unfolding(crate::specs::Charge::filled))]
    pub fn filled(mut self) -> Charge
        ensures { result ≡ Spec.filled self }
    {
        self.held = grains_of_counts(self.lmd);
        self.run = Run::started();
        self
    }

    // The voltage at or below EDVF.
    #[tactic(auto, unfolding(crate::specs::Charge::emptied))]
    pub fn emptied(mut self) -> Charge
        ensures { result ≡ Spec.emptied self }
    {
        self.held = 0;
        self.run = Run::none();
        self
    }

    // The run ended, all else kept.
    #[tactic(auto, unfolding(crate::specs::Charge::without_run))]
    pub fn without_run(mut self) -> Charge
        ensures { result ≡ Spec.without_run self }
    {
        self.run = Run::none();
        self
    }

    // A run that qualifies teaches.
    #[tactic(auto, unfolding(crate::specs::Charge::taught))]
    pub fn taught(self) -> Charge
        ensures { result ≡ Spec.taught self }
    {
        let lmd = learned(self.lmd, self.run.dcr);
        Charge {
            held: grains_of_counts(lmd / 16),
            lmd,
            run: Run::none(),
        }
    }

    // What 14 asks of the charge.
    #[tactic(auto, unfolding(crate::specs::Charge::charge_accepted))]
    pub fn accepted(self) -> bool
        ensures { result ≡ Spec.charge_accepted self }
    {
        if self.lmd == 0 {
            return false;
        }
        if grains_of_counts(self.lmd) < self.held {
            return false;
        }
        self.run.accepted()
    }
}
