// Loading a gauge from bytes of any form, length and content.
ghost use Rattle.std.specs.Prelude.{true, false, ◌≡◌, ◌≤◌, length};
ghost use Rattle.configuration.specs.Terms.{terms_of};
ghost use Rattle.form.specs.Form.{form1, form_numbered, length_of};
ghost use Rattle.form.specs.InNewest.{in_newest};
ghost use Rattle.load.specs.Load.{carried_standby, read_in};
ghost use Rattle.refusals.specs.Refusal.{Answers};
ghost use Rattle.standby.specs.Standby.{standby_accepted};
ghost use Rattle.every_form.specs.EveryForm as Spec;

use configuration::configuration::s0;
use configuration::settings::Settings;
use form::form::{
    AT_CYCT, AT_FORM, FORM, FORM_1, FORM_2, FORM_3, FORM_4, LENGTH, LENGTH_1, LENGTH_2, LENGTH_3,
    LENGTH_4,
};
use gauge::state::Gauge;
use load::load::{decoded, in_form};
use numbers::little::byte_at;
use refusals::Refusal;

// The forms that are read.
#[derive(Clone, Copy, Debug, PartialEq, Eq)]
pub enum SavedForm {
    One,
    Two,
    Three,
    Four,
    Newest,
}

impl SavedForm {
    // By the first byte; one that is the number of no form is held to the newest.
    fn told_by(first: u8) -> SavedForm
        ensures { Spec.form_as result ≡ form_numbered first }
    {
        match first {
            FORM_1 => SavedForm::One,
            FORM_2 => SavedForm::Two,
            FORM_3 => SavedForm::Three,
            FORM_4 => SavedForm::Four,
            _ => SavedForm::Newest,
        }
    }

    fn number(self) -> u8
        ensures { result ≡ (Spec.form_as self).number }
    {
        match self {
            SavedForm::One => FORM_1,
            SavedForm::Two => FORM_2,
            SavedForm::Three => FORM_3,
            SavedForm::Four => FORM_4,
            SavedForm::Newest => FORM,
        }
    }

    fn length(self) -> u16
        ensures { result ≡ length_of (Spec.form_as self).fields }
    {
        match self {
            SavedForm::One => LENGTH_1,
            SavedForm::Two => LENGTH_2,
            SavedForm::Three => LENGTH_3,
            SavedForm::Four => LENGTH_4,
            SavedForm::Newest => LENGTH,
        }
    }

    // "SI ≤ 2 × S0", of form 1's SI in units: what fails it has more than "32 × S0" sixteenths. It is tested before the multiplication, since
    // 16 × SI may not fit two bytes.
    #[tactic(auto, unfolding(load::specs::Load::carried_standby, standby::specs::Standby::standby_accepted))]
    fn units_fit(self, settings: Settings, standby: u16) -> bool
        ensures standby_value { result ≡ false → standby_accepted (terms_of settings).s0 (carried_standby (Spec.form_as self).number standby) ≡ false }
        ensures range { (Spec.form_as self).number ≡ form1.number → result ≡ true → standby ≤ 1_020 }
    {
        match self {
            SavedForm::One => standby <= 2 * s0(settings),
            _ => true,
        }
    }

    // "multiplied by 16".
    #[tactic(auto, unfolding(load::specs::Load::carried_standby))]
    fn carried_standby(self, standby: u16) -> u16
        requires { (Spec.form_as self).number ≡ form1.number → standby ≤ 1_020 }
        ensures { result ≡ carried_standby (Spec.form_as self).number standby }
    {
        match self {
            SavedForm::One => 16 * standby,
            _ => standby,
        }
    }
}

// Bytes of a form in the places of the newest, over zeros: what stands behind form 4's count moves up. Each length is copied by itself, so that the
// compiler knows how many bytes it copies.
fn in_newest(bytes: &[u8], form: SavedForm) -> [u8; LENGTH as usize]
    requires { length bytes.now ≡ length_of (Spec.form_as form).fields }
    ensures { result ≡ in_newest (Spec.form_as form) bytes.now }
{
    let mut whole = [0; LENGTH as usize];
    match form {
        SavedForm::One | SavedForm::Two => {
            let (front, _) = bytes.split_at(LENGTH_2 as usize);
            whole[..LENGTH_2 as usize].copy_from_slice(front);
        }
        SavedForm::Three => {
            let (front, _) = bytes.split_at(LENGTH_3 as usize);
            whole[..LENGTH_3 as usize].copy_from_slice(front);
        }
        SavedForm::Four => {
            let (front, _) = bytes.split_at(LENGTH_3 as usize);
            whole[..LENGTH_3 as usize].copy_from_slice(front);
            let behind = &bytes[LENGTH_3 as usize..LENGTH_4 as usize];
            whole[AT_CYCT as usize..].copy_from_slice(behind);
        }
        SavedForm::Newest => {
            let (front, _) = bytes.split_at(LENGTH as usize);
            whole.copy_from_slice(front);
        }
    }
    whole
}

// What bytes of any form hold: they are read as bytes of the newest form are, so that the function that reads them is in the archive once.
fn decoded_in_newest(bytes: &[u8], form: SavedForm) -> Gauge
    requires { length bytes.now ≡ length_of (Spec.form_as form).fields }
    ensures { result ≡ read_in (Spec.form_as form) bytes.now }
{
    let whole = in_newest(bytes, form);
    decoded(&whole)
}

// The gauge that the bytes hold, in the form that their first byte tells, or 14. What is tested first stands at the same places in every form.
pub fn load(bytes: &[u8]) -> Result<Gauge, Refusal>
    ensures { Answers result (Spec.load_answer bytes.now).number (Spec.load_answer bytes.now).gauge }
{
    let form = SavedForm::told_by(byte_at(bytes, AT_FORM as usize));
    if !in_form(bytes, form.number(), form.length()) {
        return Err(Refusal::Rejected);
    }
    let mut gauge = decoded_in_newest(bytes, form);
    if !form.units_fit(gauge.settings, gauge.standby) {
        return Err(Refusal::Rejected);
    }
    gauge.standby = form.carried_standby(gauge.standby);
    gauge.tested()?;
    Ok(gauge)
}
