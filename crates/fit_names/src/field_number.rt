//! The numbers of the fields that any message may have, and of those of record messages, by their names ("Field Definition").
ghost use Rattle.std.specs.Prelude.{◌≡◌, ◌∷◌, [], map};
ghost use Rattle.fit_names.specs.Profile.{message_index, record_message, timestamp};

/// The time of a message, in seconds since 31 December 1989, 00:00:00 UTC.
pub const TIMESTAMP: u8 = 253;
/// The place of a message among those of its kind.
pub const MESSAGE_INDEX: u8 = 254;

/// Of record messages: latitude, in semicircles.
pub const POSITION_LAT: u8 = 0;
/// Of record messages: longitude, in semicircles.
pub const POSITION_LONG: u8 = 1;
/// Of record messages: height above the sea.
pub const ALTITUDE: u8 = 2;
/// Of record messages: heartbeats a minute.
pub const HEART_RATE: u8 = 3;
/// Of record messages: turns of the pedals or steps of one leg a minute.
pub const CADENCE: u8 = 4;
/// Of record messages: the distance from the start.
pub const DISTANCE: u8 = 5;
/// Of record messages: the speed.
pub const SPEED: u8 = 6;
/// Of record messages: the power at the pedals, in watts.
pub const POWER: u8 = 7;
/// Of record messages: speed and distance in three bytes.
pub const COMPRESSED_SPEED_DISTANCE: u8 = 8;
/// Of record messages: the slope in percent.
pub const GRADE: u8 = 9;
/// Of record messages: the time after or ahead of a course.
pub const TIME_FROM_COURSE: u8 = 11;
/// Of record messages: the temperature in degrees Celsius.
pub const TEMPERATURE: u8 = 13;
/// Of record messages: turns or steps, of which only the low 8 bits are kept.
pub const CYCLES: u8 = 18;
/// Of record messages: all turns or steps from the start.
pub const TOTAL_CYCLES: u8 = 19;
/// Of record messages: the sum of the power, of which only the low 16 bits are kept.
pub const COMPRESSED_ACCUMULATED_POWER: u8 = 28;
/// Of record messages: the sum of the power from the start.
pub const ACCUMULATED_POWER: u8 = 29;
/// Of record messages: the speed upward.
pub const VERTICAL_SPEED: u8 = 32;
/// Of record messages: calories from the start.
pub const CALORIES: u8 = 33;
/// Of record messages: how far a runner moves up and down.
pub const VERTICAL_OSCILLATION: u8 = 39;
/// Of record messages: how long a runner's foot is on the ground.
pub const STANCE_TIME: u8 = 41;
/// Of record messages: the speed in four bytes.
pub const ENHANCED_SPEED: u8 = 73;
/// Of record messages: height above the sea in four bytes.
pub const ENHANCED_ALTITUDE: u8 = 78;

/// The numbers of the two fields that any message may have.
pub fn common() -> [u8; 2]
    ensures { result ≡ timestamp.number ∷ message_index.number ∷ [] }
{
    [TIMESTAMP, MESSAGE_INDEX]
}

/// The numbers of the fields that the profile lists for record messages, in its order.
pub fn of_record() -> [u8; 22]
    ensures { result ≡ map (λ f. f.number) record_message.fields }
{
    [
        POSITION_LAT,
        POSITION_LONG,
        ALTITUDE,
        HEART_RATE,
        CADENCE,
        DISTANCE,
        SPEED,
        POWER,
        COMPRESSED_SPEED_DISTANCE,
        GRADE,
        TIME_FROM_COURSE,
        TEMPERATURE,
        CYCLES,
        TOTAL_CYCLES,
        COMPRESSED_ACCUMULATED_POWER,
        ACCUMULATED_POWER,
        VERTICAL_SPEED,
        CALORIES,
        VERTICAL_OSCILLATION,
        STANCE_TIME,
        ENHANCED_SPEED,
        ENHANCED_ALTITUDE,
    ]
}
