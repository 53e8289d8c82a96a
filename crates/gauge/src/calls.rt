// The calls on a gauge value: a window, a rest and a host write. 14 is tested first, then the refusals in the paper's order.
ghost use Rattle.std.specs.Prelude.{◌≡◌};
ghost use Rattle.gauge.specs.Calls as Spec;
ghost use Rattle.refusals.specs.Refusal.{Answers};

use crate::state::Gauge;
use crate::window::measured;
use command::command::decide;
use configuration::configuration::dmf;
use refusals::Refusal;
use sample::range::read_temperature;
use sample::sample::Sample;

// "A rest may now last 506,250 windows, thirty days" (A6 of paper 02).
pub const LONGEST_REST: u32 = 506_250;

// Where keys are written.
pub const CTRL: u32 = 0x00;

// The last address that the host may write: AR's high byte.
pub const LAST_WRITABLE: u32 = 0x03;

impl Gauge {
    // A window: current, voltage and temperature as handed in.
    pub fn window(self, a: i32, v: i32, t: i32) -> Result<Gauge, Refusal>
        ensures { Answers result (Spec.window_answer self a v t).number (Spec.window_answer self a v t).gauge }
    {
        self.tested()?;
        let measured = measured(a, v, t)?;
        let counted = measured.current.counted(dmf(self.settings));
        let sample = Sample {
            current: counted,
            ..measured
        };
        let stepped = self.stepped(sample);
        Ok(stepped)
    }

    // A rest of a number of windows.
    pub fn rest(self, windows: u32, t: i32) -> Result<Gauge, Refusal>
        ensures { Answers result (Spec.rest_answer self windows t).number (Spec.rest_answer self windows t).gauge }
    {
        self.tested()?;
        if windows == 0 {
            return Err(Refusal::RestLength);
        }
        if LONGEST_REST < windows {
            return Err(Refusal::RestLength);
        }
        let temperature = read_temperature(t)?;
        let rested = self.rested(windows, temperature);
        Ok(rested)
    }

    // A host write of one byte.
    pub fn write(self, address: u32, value: u8) -> Result<Gauge, Refusal>
        ensures { Answers result (Spec.write_answer self address value).number (Spec.write_answer self address value).gauge }
    {
        self.tested()?;
        if LAST_WRITABLE < address {
            return Err(Refusal::NotWritable);
        }
        if address == CTRL {
            return self.keyed(value);
        }
        let mut gauge = self;
        gauge.host = gauge.host.stored(address, value);
        Ok(gauge)
    }

    // A key at CTRL.
    fn keyed(self, key: u8) -> Result<Gauge, Refusal>
        ensures { Answers result (Spec.key_answer self key).number (Spec.key_answer self key).gauge }
    {
        let command = decide(key, self.host.mode, self.host.ar)?;
        Ok(self.obeyed(command))
    }
}
