// The calls from C, whose prototypes are in include/gauge.h: a slice is a pointer and a length there, a lent number a pointer. Each is the call of
// crates/handset of the same name, with its clauses again; it answers the number of its outcome.
#![tactic(auto)]

ghost use Rattle.std.specs.Prelude.{◌≡◌, length};
ghost use Rattle.handset.specs.Calls as Spec;

use handset::calls;
use refusals::number_of;

#[unsafe(no_mangle)]
pub extern "C" fn gauge_open(configuration: &[u8], saved: &mut [u8]) -> u32
    ensures number { result ≡ Spec.open_number configuration.now (length saved.old) }
    ensures bytes { saved.new ≡ Spec.open_bytes configuration.now saved.old }
{
    number_of(calls::gauge_open(configuration, saved))
}

#[unsafe(no_mangle)]
pub extern "C" fn gauge_convert(old: &[u8], saved: &mut [u8]) -> u32
    ensures number { result ≡ Spec.convert_number old.now (length saved.old) }
    ensures bytes { saved.new ≡ Spec.convert_bytes old.now saved.old }
{
    number_of(calls::gauge_convert(old, saved))
}

#[unsafe(no_mangle)]
pub extern "C" fn gauge_window(
    saved: &mut [u8],
    current: i32,
    voltage: i32,
    temperature: i32,
) -> u32
    ensures number { result ≡ Spec.call_number saved.old (Spec.window_call current voltage temperature) }
    ensures bytes { saved.new ≡ Spec.call_bytes saved.old (Spec.window_call current voltage temperature) }
{
    number_of(calls::gauge_window(saved, current, voltage, temperature))
}

#[unsafe(no_mangle)]
pub extern "C" fn gauge_rest(saved: &mut [u8], windows: u32, temperature: i32) -> u32
    ensures number { result ≡ Spec.call_number saved.old (Spec.rest_call windows temperature) }
    ensures bytes { saved.new ≡ Spec.call_bytes saved.old (Spec.rest_call windows temperature) }
{
    number_of(calls::gauge_rest(saved, windows, temperature))
}

#[unsafe(no_mangle)]
pub extern "C" fn gauge_write(saved: &mut [u8], address: u32, value: u8) -> u32
    ensures number { result ≡ Spec.call_number saved.old (Spec.write_call address value) }
    ensures bytes { saved.new ≡ Spec.call_bytes saved.old (Spec.write_call address value) }
{
    number_of(calls::gauge_write(saved, address, value))
}

#[unsafe(no_mangle)]
pub extern "C" fn gauge_read(
    saved: &[u8],
    address: u32,
    count: u32,
    reply: &mut [u8],
    place: u32,
) -> u32
    ensures number { result ≡ Spec.read_number saved.now address count place (length reply.old) }
    ensures bytes { reply.new ≡ Spec.read_reply saved.now address count place reply.old }
{
    number_of(calls::gauge_read(saved, address, count, reply, place))
}

#[unsafe(no_mangle)]
pub extern "C" fn gauge_preview(saved: &[u8], key: u8, reply: &mut [u8], command: &mut u8) -> u32
    ensures number { result ≡ Spec.preview_number saved.now key (length reply.old) }
    ensures bytes { reply.new ≡ Spec.preview_reply saved.now key reply.old }
    ensures command { command.new ≡ Spec.preview_command saved.now key (length reply.old) command.old }
{
    number_of(calls::gauge_preview(saved, key, reply, command))
}

#[unsafe(no_mangle)]
pub extern "C" fn gauge_estimate(
    saved: &[u8],
    voltage: i32,
    estimate: &mut u16,
    distance: &mut i32,
) -> u32
    ensures number { result ≡ Spec.estimate_number saved.now voltage }
    ensures estimate { estimate.new ≡ Spec.estimate_counts saved.now voltage estimate.old }
    ensures distance { distance.new ≡ Spec.estimate_distance saved.now voltage distance.old }
{
    number_of(calls::gauge_estimate(saved, voltage, estimate, distance))
}
