// The forms' numbers, and where each field of the newest stands, which is where the field before it ends. An older form has the same places, up to
// its end or to what stands behind its narrower count.

// The newest form, in which a gauge is saved.
pub const FORM: u8 = 5;

// Form 4, whose count of rest windows has two bytes.
pub const FORM_4: u8 = 4;

// Form 3, without CYCT and its drain.
pub const FORM_3: u8 = 3;

// Form 2, without the count of rest windows too.
pub const FORM_2: u8 = 2;

// "form 1", of form 2's length, whose SI is in units.
pub const FORM_1: u8 = 1;

pub const AT_FORM: u16 = 0;

pub const AT_CONFIGURATION: u16 = AT_FORM + 1;

pub const AT_HELD: u16 = AT_CONFIGURATION + 10;

pub const AT_DCR: u16 = AT_HELD + 8;

pub const AT_LMD: u16 = AT_DCR + 8;

// SI in sixteenths, in form 1 in units.
pub const AT_STANDBY: u16 = AT_LMD + 2;

pub const AT_CURRENT: u16 = AT_STANDBY + 2;

pub const AT_VOLTAGE: u16 = AT_CURRENT + 2;

pub const AT_TEMPERATURE: u16 = AT_VOLTAGE + 2;

pub const AT_AR: u16 = AT_TEMPERATURE + 2;

pub const AT_MODE: u16 = AT_AR + 2;

pub const AT_FLAGS: u16 = AT_MODE + 1;

// The count of rest windows, in four bytes.
pub const AT_RESTS: u16 = AT_FLAGS + 1;

// "41 bytes": form 1, and form 2.
pub const LENGTH_1: u16 = AT_RESTS;

pub const LENGTH_2: u16 = LENGTH_1;

// 43 bytes: form 3, whose count of rest windows has two, as form 4's has.
pub const LENGTH_3: u16 = AT_RESTS + 2;

// 53 bytes: form 4, with CYCT and its drain behind that.
pub const LENGTH_4: u16 = LENGTH_3 + 2 + 8;

pub const AT_CYCT: u16 = AT_RESTS + 4;

// What CYCT is counted from.
pub const AT_CYCLE_DRAIN: u16 = AT_CYCT + 2;

// 55 bytes.
pub const LENGTH: u16 = AT_CYCLE_DRAIN + 8;
