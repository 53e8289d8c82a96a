// The input of a window: the value of each number handed in, and that value or the refusal of a number that is out of range.
ghost use Rattle.std.specs.Prelude.{◌≡◌, ◌<◌};
ghost use Rattle.refusals.specs.Refusal.{Answers};
ghost use Rattle.sample.specs.Range as Spec;

use crate::current::Current;
use crate::limits::{
    LEAST_TEMPERATURE, LEAST_VOLTAGE, MOST_CURRENT, MOST_TEMPERATURE, MOST_VOLTAGE,
};
use numbers::signed::take_apart;
use refusals::Refusal;

// a by direction and magnitude: "current a (units, positive charging, −28,011 to 28,011)".
pub fn read_current(a: i32) -> Result<Current, Refusal>
    ensures { Answers result (Spec.current_refusal a) (Spec.current a) }
{
    let apart = take_apart(a);
    if (MOST_CURRENT as u32) < apart.magnitude {
        return Err(Refusal::CurrentRange);
    }
    let magnitude = apart.magnitude as u16;
    let charging = !apart.negative && 0 < magnitude;
    Ok(Current {
        charging,
        magnitude,
    })
}

// a by direction and magnitude, none out of range.
pub fn current(a: i32) -> Current
    ensures { result ≡ Spec.current a }
{
    match read_current(a) {
        Ok(current) => current,
        Err(_) => Current::none(),
    }
}

// From a least above 0 to the most, both included.
fn between(least: u16, most: u16, number: i32) -> Option<u16>
    requires { 0 < least }
    ensures { result ≡ Spec.read_between least most number }
{
    if number < least as i32 {
        return None;
    }
    if (most as i32) < number {
        return None;
    }
    Some(number as u16)
}

// "voltage v (2,600 to 4,500 mV)".
pub fn read_voltage(v: i32) -> Result<u16, Refusal>
    ensures { Answers result (Spec.voltage_refusal v) (Spec.voltage v) }
{
    between(LEAST_VOLTAGE, MOST_VOLTAGE, v).ok_or(Refusal::VoltageRange)
}

// Its value, 0 out of range.
#[tactic(auto, unfolding(crate::specs::Range::read_between, crate::specs::Range::value_between))]
pub fn voltage(v: i32) -> u16
    ensures { result ≡ Spec.voltage v }
{
    between(LEAST_VOLTAGE, MOST_VOLTAGE, v).unwrap_or(0)
}

// "temperature t (1,012 to 1,372 quarter kelvins)".
pub fn read_temperature(t: i32) -> Result<u16, Refusal>
    ensures { Answers result (Spec.temperature_refusal t) (Spec.temperature t) }
{
    between(LEAST_TEMPERATURE, MOST_TEMPERATURE, t).ok_or(Refusal::TemperatureRange)
}

// Its value, 0 out of range.
#[tactic(auto, unfolding(crate::specs::Range::read_between, crate::specs::Range::value_between))]
pub fn temperature(t: i32) -> u16
    ensures { result ≡ Spec.temperature t }
{
    between(LEAST_TEMPERATURE, MOST_TEMPERATURE, t).unwrap_or(0)
}
