// "A window takes the gauge and yields the gauge that follows it", on the saved bytes.
ghost use Rattle.std.specs.Prelude.{◌≡◌};
ghost use Rattle.gauge.specs.Calls.{window_answer};
ghost use Rattle.refusals.specs.Refusal.{number_of};
ghost use Rattle.saved.specs.Call as Spec;

use crate::direction::stepped;
use configuration::configuration::dmf;
use gauge::window::measured;
use load::load::tested;
use load::parts::loaded_settings;
use refusals::Refusal;
use sample::sample::Sample;

// 14, 3, 4, 5, or the window's gauge in the bytes.
pub fn window(saved: &mut [u8], a: i32, v: i32, t: i32) -> Result<(), Refusal>
    ensures number { number_of result ≡ Spec.call_number saved.old (λ g. window_answer g a v t) }
    ensures bytes { saved.new ≡ Spec.call_bytes saved.old (λ g. window_answer g a v t) }
{
    tested(saved)?;
    let measured = measured(a, v, t)?;
    let settings = loaded_settings(saved);
    let sample = Sample {
        current: measured.current.counted(dmf(settings)),
        ..measured
    };
    stepped(saved, &sample);
    Ok(())
}
