// The last sample of a gauge.
ghost use Rattle.std.specs.Prelude.{◌≡◌};
ghost use Rattle.sample.specs.Limits.{zero_or_within};
ghost use Rattle.sample.specs.Sample as Spec;

use crate::current::Current;
use crate::limits::{
    LEAST_TEMPERATURE, LEAST_VOLTAGE, MOST_CURRENT, MOST_TEMPERATURE, MOST_VOLTAGE,
};
use command::command::Command;

#[derive(Clone, Copy, Debug, PartialEq, Eq)]
pub struct Sample {
    // c by direction, CHGS, and magnitude, IAV
    pub current: Current,
    // VOLT, 0: not measured yet
    pub voltage: u16,
    // TEMP, 0: not measured yet
    pub temperature: u16,
}

#[tactic(auto, unfolding(crate::specs::Sample::current_accepted))]
fn current_accepted(dmf: u8, current: Current) -> bool
    ensures { result ≡ Spec.current_accepted dmf current }
{
    if MOST_CURRENT < current.magnitude {
        return false;
    }
    if (dmf as u16) < current.magnitude {
        return true;
    }
    if current.magnitude == 0 {
        return !current.charging;
    }
    false
}

#[tactic(auto, unfolding(crate::specs::Limits::zero_or_within))]
fn zero_or_within(least: u16, most: u16, value: u16) -> bool
    ensures { result ≡ zero_or_within least most value }
{
    if value == 0 {
        return true;
    }
    if value < least {
        return false;
    }
    value <= most
}

impl Sample {
    // Nothing measured yet: opening.
    #[tactic(auto, unfolding(crate::specs::Sample::no_sample))]
    pub fn none() -> Sample
        ensures { result ≡ Spec.no_sample }
    {
        let current = Current::none();
        Sample {
            current,
            voltage: 0,
            temperature: 0,
        }
    }

    // Settings leave the sample; resets put it as opened.
    #[tactic(auto, unfolding(crate::specs::Sample::sample_obeyed))]
    pub fn obeyed(self, command: Command) -> Sample
        ensures { result ≡ Spec.sample_obeyed command self }
    {
        match command {
            Command::Setting(_) => self,
            Command::Reset(_) => Sample::none(),
        }
    }

    // No current flows in a rest; VOLT stays.
    #[tactic(auto, unfolding(crate::specs::Sample::sample_rested))]
    pub fn rested(mut self, temperature: u16) -> Sample
        ensures { result ≡ Spec.sample_rested temperature self }
    {
        let current = Current::none();
        self.current = current;
        self.temperature = temperature;
        self
    }

    // What 14 asks of a sample.
    #[tactic(auto, unfolding(crate::specs::Sample::sample_accepted))]
    pub fn accepted(self, dmf: u8) -> bool
        ensures { result ≡ Spec.sample_accepted dmf self }
    {
        let current = self.current;
        if !current_accepted(dmf, current) {
            return false;
        }
        if !zero_or_within(LEAST_VOLTAGE, MOST_VOLTAGE, self.voltage) {
            return false;
        }
        zero_or_within(LEAST_TEMPERATURE, MOST_TEMPERATURE, self.temperature)
    }
}
