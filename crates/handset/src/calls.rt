// The calls that crates/handset_c hands to C, on the saved bytes. 14 is tested first, and a refusal changes no byte of any buffer. Calls
// that move the gauge and calls that look at it work where the bytes are; opening and converting make a gauge value, which is saved.
ghost use Rattle.std.specs.Prelude.{◌≡◌, length};
ghost use Rattle.handset.specs.Calls as Spec;
ghost use Rattle.refusals.specs.Refusal.{number_of};

use crate::keep::keep;
use every_form::every_form::load;
use gauge::opening::open;
use load::load::{decoded, form_fits};
use looks::preview_key::preview;
use looks::reading::read_in;
use moves::rest::rest;
use moves::window::window;
use moves::write::write;
use refusals::Refusal;

// Refuses 1, 2, 13.
pub fn gauge_open(configuration: &[u8], saved: &mut [u8]) -> Result<(), Refusal>
    ensures number { number_of result ≡ Spec.open_number configuration.now (length saved.old) }
    ensures bytes { saved.new ≡ Spec.open_bytes configuration.now saved.old }
{
    keep(open(configuration), saved)
}

// Bytes of any form in, the newest out. Refuses 14, 13.
pub fn gauge_convert(old: &[u8], saved: &mut [u8]) -> Result<(), Refusal>
    ensures number { number_of result ≡ Spec.convert_number old.now (length saved.old) }
    ensures bytes { saved.new ≡ Spec.convert_bytes old.now saved.old }
{
    keep(load(old), saved)
}

// Refuses 14, 3, 4, 5.
pub fn gauge_window(
    saved: &mut [u8],
    current: i32,
    voltage: i32,
    temperature: i32,
) -> Result<(), Refusal>
    ensures number { number_of result ≡ Spec.call_number saved.old (Spec.window_call current voltage temperature) }
    ensures bytes { saved.new ≡ Spec.call_bytes saved.old (Spec.window_call current voltage temperature) }
{
    window(saved, current, voltage, temperature)
}

// Refuses 14, 6, 5.
pub fn gauge_rest(saved: &mut [u8], windows: u32, temperature: i32) -> Result<(), Refusal>
    ensures number { number_of result ≡ Spec.call_number saved.old (Spec.rest_call windows temperature) }
    ensures bytes { saved.new ≡ Spec.call_bytes saved.old (Spec.rest_call windows temperature) }
{
    rest(saved, windows, temperature)
}

// Refuses 14, 7 to 11.
pub fn gauge_write(saved: &mut [u8], address: u32, value: u8) -> Result<(), Refusal>
    ensures number { number_of result ≡ Spec.call_number saved.old (Spec.write_call address value) }
    ensures bytes { saved.new ≡ Spec.call_bytes saved.old (Spec.write_call address value) }
{
    write(saved, address, value)
}

// Refuses 14, 12, 13.
pub fn gauge_read(
    saved: &[u8],
    address: u32,
    count: u32,
    reply: &mut [u8],
    place: u32,
) -> Result<(), Refusal>
    ensures number { number_of result ≡ Spec.read_number saved.now address count place (length reply.old) }
    ensures bytes { reply.new ≡ Spec.read_reply saved.now address count place reply.old }
{
    read_in(saved, address, count, reply, place)
}

// "the write done on a copy and then read". Refuses 14, 8 to 11, 13.
pub fn gauge_preview(
    saved: &[u8],
    key: u8,
    reply: &mut [u8],
    command: &mut u8,
) -> Result<(), Refusal>
    ensures number { number_of result ≡ Spec.preview_number saved.now key (length reply.old) }
    ensures bytes { reply.new ≡ Spec.preview_reply saved.now key reply.old }
    ensures command { command.new ≡ Spec.preview_command saved.now key (length reply.old) command.old }
{
    preview(saved, key, reply, command)
}

// "Charge from a rested cell". Refuses 14, 15, 16.
pub fn gauge_estimate(
    saved: &[u8],
    voltage: i32,
    estimate: &mut u16,
    distance: &mut i32,
) -> Result<(), Refusal>
    ensures number { number_of result ≡ Spec.estimate_number saved.now voltage }
    ensures estimate { estimate.new ≡ Spec.estimate_counts saved.now voltage estimate.old }
    ensures distance { distance.new ≡ Spec.estimate_distance saved.now voltage distance.old }
{
    if !form_fits(saved) {
        return Err(Refusal::Rejected);
    }
    let rested = estimate::estimate::estimate(decoded(saved), voltage)?;
    *estimate = rested.counts;
    *distance = rested.distance;
    Ok(())
}
