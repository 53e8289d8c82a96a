// "A rest of n windows", on the saved bytes.
ghost use Rattle.std.specs.Prelude.{true, ◌≡◌};
ghost use Rattle.form.specs.Form.{newest};
ghost use Rattle.gauge.specs.Calls.{rest_answer};
ghost use Rattle.gauge.specs.Rest as Rest;
ghost use Rattle.load.specs.Load.{decoded_gauge, form_fits};
ghost use Rattle.refusals.specs.Refusal.{number_of};
ghost use Rattle.saved.specs.Call as Spec;
ghost use Rattle.saved.specs.Save.{saved_bytes};

use configuration::configuration::sd;
use gauge::calls::LONGEST_REST;
use grains::leak::leak_rate;
use load::load::tested;
use load::parts::{loaded_charge, loaded_counters, loaded_flags, loaded_sample, loaded_settings};
use refusals::Refusal;
use sample::range::read_temperature;
use saved::parts::{put_charge, put_counters, put_flags, put_sample};

fn rested(saved: &mut [u8], windows: u32, temperature: u16)
    requires { form_fits newest saved.old ≡ true }
    ensures { saved.new ≡ saved_bytes (Rest.rest windows temperature (decoded_gauge saved.old)) }
{
    let settings = loaded_settings(saved);
    let rate = leak_rate(sd(settings), temperature);
    let charge = loaded_charge(saved).rested(windows, rate);
    let sample = loaded_sample(saved).rested(temperature);
    let flags = loaded_flags(saved);
    let counters = loaded_counters(saved).rested(windows);
    put_charge(saved, charge);
    put_sample(saved, sample);
    put_flags(saved, false, charge.run.vdq, flags);
    put_counters(saved, counters);
}

// 14, 6, 5, or the rest's gauge in the bytes.
pub fn rest(saved: &mut [u8], windows: u32, t: i32) -> Result<(), Refusal>
    ensures number { number_of result ≡ Spec.call_number saved.old (λ g. rest_answer g windows t) }
    ensures bytes { saved.new ≡ Spec.call_bytes saved.old (λ g. rest_answer g windows t) }
{
    tested(saved)?;
    if windows == 0 {
        return Err(Refusal::RestLength);
    }
    if LONGEST_REST < windows {
        return Err(Refusal::RestLength);
    }
    let temperature = read_temperature(t)?;
    rested(saved, windows, temperature);
    Ok(())
}
