// The limits of a sample: a window is held to them, and so is a gauge value.

// "current a (units, positive charging, −28,011 to 28,011)".
pub const MOST_CURRENT: u16 = 28_011;

// "voltage v (2,600 to 4,500 mV)".
pub const LEAST_VOLTAGE: u16 = 2_600;

pub const MOST_VOLTAGE: u16 = 4_500;

// "temperature t (1,012 to 1,372 quarter kelvins)".
pub const LEAST_TEMPERATURE: u16 = 1_012;

pub const MOST_TEMPERATURE: u16 = 1_372;
