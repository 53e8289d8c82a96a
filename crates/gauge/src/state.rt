// The gauge, a value: its settings, with the ten configuration bytes, travel in it.
use charge::charge::Charge;
use configuration::settings::Settings;
use counters::counters::Counters;
use flags::flags::Flags;
use host::host::Host;
use sample::sample::Sample;

#[derive(Clone, Copy, Debug, PartialEq, Eq)]
pub struct Gauge {
    // the configuration bytes in force
    pub settings: Settings,
    // h, LMD and the run
    pub charge: Charge,
    // c, VOLT and TEMP
    pub sample: Sample,
    // SI, in sixteenths
    pub standby: u16,
    // CI, EDV1 and EDVF
    pub flags: Flags,
    // MODE and AR
    pub host: Host,
    // rest windows, CYCT and its drain
    pub counters: Counters,
}
