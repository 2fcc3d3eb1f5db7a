//! Numbers of the FIT profile, which the tests call by their names. Those of base types are in `fit_base::base_type`.

// Global message numbers.

pub const RECORD: u16 = 20;

pub const EVENT: u16 = 21;

pub const DEVICE_INFO: u16 = 23;

pub const HRV: u16 = 78;

pub const FIELD_DESCRIPTION: u16 = 206;

// Fields of any message, and of record messages.

pub const TIMESTAMP: u8 = 253;

pub const ALTITUDE: u8 = 2;

pub const HEART_RATE: u8 = 3;

pub const POWER: u8 = 7;

pub const COMPRESSED_SPEED_DISTANCE: u8 = 8;

pub const CYCLES: u8 = 18;

pub const COMPRESSED_ACCUMULATED_POWER: u8 = 28;

// Fields of device_info, hrv and field_description messages.

pub const BATTERY_VOLTAGE: u8 = 10;

pub const HRV_TIME: u8 = 0;

pub const DEVELOPER_DATA_INDEX: u8 = 0;

pub const FIELD_DEFINITION_NUMBER: u8 = 1;

pub const FIT_BASE_TYPE_ID: u8 = 2;

pub const FIELD_NAME: u8 = 3;

pub const UNITS: u8 = 8;
