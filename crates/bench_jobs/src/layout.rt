//! The fields of the messages that the recordings have.

/// Number, size and base type of a field, or number, size and index of a developer field.
pub(crate) type Entry = [u8; 3];

const ENUM: u8 = 0x00;

const SINT8: u8 = 0x01;

const UINT8: u8 = 0x02;

const STRING: u8 = 0x07;

const BYTE: u8 = 0x0D;

const UINT16: u8 = 0x84;

const SINT32: u8 = 0x85;

const UINT32: u8 = 0x86;

const UINT32Z: u8 = 0x8C;

/// Global message numbers.
pub(crate) const FILE_ID: u16 = 0;

pub(crate) const SESSION: u16 = 18;

pub(crate) const LAP: u16 = 19;

pub(crate) const RECORD: u16 = 20;

pub(crate) const EVENT: u16 = 21;

pub(crate) const DEVICE: u16 = 23;

pub(crate) const WORKOUT: u16 = 26;

pub(crate) const COURSE_POINT: u16 = 32;

pub(crate) const ACTIVITY: u16 = 34;

pub(crate) const HEART_BEATS: u16 = 78;

pub(crate) const ACCELERATION: u16 = 165;

pub(crate) const DESCRIPTION: u16 = 206;

pub(crate) const DEVELOPER: u16 = 207;
/// One that no profile lists.
pub(crate) const UNLISTED: u16 = 0xFF07;

/// The field that begins most messages.
pub(crate) static STAMP: [Entry; 1] = [[253, 4, UINT32]];

pub(crate) static FILE_FIELDS: [Entry; 5] = [
    [0, 1, ENUM],
    [1, 2, UINT16],
    [2, 2, UINT16],
    [3, 4, UINT32Z],
    [4, 4, UINT32],
];

pub(crate) static DEVICE_FIELDS: [Entry; 6] = [
    [253, 4, UINT32],
    [0, 1, UINT8],
    [2, 2, UINT16],
    [3, 4, UINT32Z],
    [4, 2, UINT16],
    [27, 12, STRING],
];

pub(crate) static EVENT_FIELDS: [Entry; 4] = [
    [253, 4, UINT32],
    [0, 1, ENUM],
    [1, 1, ENUM],
    [3, 4, UINT32],
];

pub(crate) static LAP_FIELDS: [Entry; 10] = [
    [253, 4, UINT32],
    [2, 4, UINT32],
    [3, 4, SINT32],
    [4, 4, SINT32],
    [7, 4, UINT32],
    [9, 4, UINT32],
    [13, 2, UINT16],
    [15, 1, UINT8],
    [16, 1, UINT8],
    [24, 1, ENUM],
];

pub(crate) static SESSION_FIELDS: [Entry; 7] = [
    [253, 4, UINT32],
    [2, 4, UINT32],
    [7, 4, UINT32],
    [9, 4, UINT32],
    [5, 1, ENUM],
    [6, 1, ENUM],
    [26, 2, UINT16],
];

pub(crate) static ACTIVITY_FIELDS: [Entry; 5] = [
    [253, 4, UINT32],
    [0, 4, UINT32],
    [1, 2, UINT16],
    [2, 1, ENUM],
    [3, 1, ENUM],
];

pub(crate) static DEVELOPER_FIELDS: [Entry; 3] = [[1, 16, BYTE], [3, 1, UINT8], [4, 4, UINT32]];

pub(crate) static DESCRIPTION_FIELDS: [Entry; 5] = [
    [0, 1, UINT8],
    [1, 1, UINT8],
    [2, 1, UINT8],
    [3, 24, STRING],
    [8, 8, STRING],
];

/// A second of a ride, after its timestamp: 21 bytes.
pub(crate) static POINT_FIELDS: [Entry; 9] = [
    [0, 4, SINT32],
    [1, 4, SINT32],
    [2, 2, UINT16],
    [3, 1, UINT8],
    [4, 1, UINT8],
    [5, 4, UINT32],
    [6, 2, UINT16],
    [7, 2, UINT16],
    [13, 1, SINT8],
];

/// A second of a ride as a watch writes it, after its timestamp: 34 bytes.
pub(crate) static WATCH_FIELDS: [Entry; 14] = [
    [0, 4, SINT32],
    [1, 4, SINT32],
    [2, 2, UINT16],
    [3, 1, UINT8],
    [4, 1, UINT8],
    [5, 4, UINT32],
    [6, 2, UINT16],
    [7, 2, UINT16],
    [13, 1, SINT8],
    [73, 4, UINT32],
    [78, 4, UINT32],
    [53, 1, UINT8],
    [39, 2, UINT16],
    [41, 2, UINT16],
];

/// A second as a bicycle computer with a power meter writes it, after its timestamp: 52 bytes. The last four are lists of two numbers.
pub(crate) static WIDE_FIELDS: [Entry; 24] = [
    [0, 4, SINT32],
    [1, 4, SINT32],
    [5, 4, UINT32],
    [2, 2, UINT16],
    [78, 4, UINT32],
    [6, 2, UINT16],
    [73, 4, UINT32],
    [3, 1, UINT8],
    [4, 1, UINT8],
    [7, 2, UINT16],
    [13, 1, SINT8],
    [29, 4, UINT32],
    [30, 1, UINT8],
    [39, 2, UINT16],
    [40, 2, UINT16],
    [41, 2, UINT16],
    [42, 1, ENUM],
    [43, 1, UINT8],
    [45, 1, UINT8],
    [53, 1, UINT8],
    [69, 2, UINT8],
    [70, 2, UINT8],
    [71, 2, UINT8],
    [72, 2, UINT8],
];

/// A second of a ride in a few fields, after its timestamp: 11 bytes.
pub(crate) static SMALL_FIELDS: [Entry; 4] = [
    [0, 4, SINT32],
    [1, 4, SINT32],
    [3, 1, UINT8],
    [6, 2, UINT16],
];

/// A second with compressed speed and distance: 18 bytes.
pub(crate) static SHORT_FIELDS: [Entry; 8] = [
    [0, 4, SINT32],
    [1, 4, SINT32],
    [2, 2, UINT16],
    [3, 1, UINT8],
    [4, 1, UINT8],
    [8, 3, BYTE],
    [7, 2, UINT16],
    [13, 1, SINT8],
];

/// A second by turns, each after its timestamp: where it was, how the rider was, and what the pedals told.
pub(crate) static PLACE_FIELDS: [Entry; 5] = [
    [0, 4, SINT32],
    [1, 4, SINT32],
    [2, 2, UINT16],
    [5, 4, UINT32],
    [6, 2, UINT16],
];

pub(crate) static BODY_FIELDS: [Entry; 3] = [[3, 1, UINT8], [4, 1, UINT8], [13, 1, SINT8]];

pub(crate) static PEDAL_FIELDS: [Entry; 3] = [[7, 2, UINT16], [29, 4, UINT32], [30, 1, UINT8]];

/// A point of a course, with its name last: 33 bytes.
pub(crate) static COURSE_FIELDS: [Entry; 6] = [
    [254, 2, UINT16],
    [1, 4, UINT32],
    [2, 4, SINT32],
    [3, 4, SINT32],
    [5, 1, ENUM],
    [6, 18, STRING],
];

/// The developer fields of a power sensor: 9 bytes.
pub(crate) static SENSOR_FIELDS: [Entry; 4] = [[0, 2, 0], [1, 2, 0], [2, 4, 0], [3, 1, 0]];

/// The developer fields of a message of `WIDE_FIELDS`, which are floats: 8 bytes.
pub(crate) static STRAIN_FIELDS: [Entry; 2] = [[1, 4, 0], [3, 4, 0]];

/// Five times between heart beats.
pub(crate) static BEAT_FIELDS: [Entry; 1] = [[0, 10, UINT16]];

/// Sixteen measures of each of three axes.
pub(crate) static AXIS_FIELDS: [Entry; 5] = [
    [253, 4, UINT32],
    [0, 2, UINT16],
    [2, 32, UINT16],
    [3, 32, UINT16],
    [4, 32, UINT16],
];

/// Fields that no profile lists.
pub(crate) static UNLISTED_FIELDS: [Entry; 3] = [[0, 64, UINT8], [1, 40, BYTE], [2, 64, SINT32]];

/// A long name.
pub(crate) static WORKOUT_FIELDS: [Entry; 2] = [[4, 1, ENUM], [8, 128, STRING]];
