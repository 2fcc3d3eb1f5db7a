//! The global message numbers of the messages that the profile lists, by their names ("Global Message Number").
ghost use Rattle.std.specs.Prelude.{◌≡◌, map};
ghost use Rattle.fit_names.specs.Profile.{messages};

/// What kind of file it is, and which device made it.
pub const FILE_ID: u16 = 0;
/// The sport of the activity.
pub const SPORT: u16 = 12;
/// A summary of the activity, or of a part of it with one sport.
pub const SESSION: u16 = 18;
/// A summary of a lap.
pub const LAP: u16 = 19;
/// What was measured at one time.
pub const RECORD: u16 = 20;
/// Something that happened, as a start or a stop.
pub const EVENT: u16 = 21;
/// A device that took part.
pub const DEVICE_INFO: u16 = 23;
/// A summary of the whole file.
pub const ACTIVITY: u16 = 34;
/// The versions of the device that made the file.
pub const FILE_CREATOR: u16 = 49;
/// Times between heartbeats.
pub const HRV: u16 = 78;
/// The description of a developer field.
pub const FIELD_DESCRIPTION: u16 = fit_record::FIELD_DESCRIPTION;
/// The application that a developer data index stands for.
pub const DEVELOPER_DATA_ID: u16 = 207;

/// The numbers of all messages that the profile lists, in its order.
pub fn all() -> [u16; 12]
    ensures { result ≡ map (λ m. m.global) messages }
{
    [
        FILE_ID,
        SPORT,
        SESSION,
        LAP,
        RECORD,
        EVENT,
        DEVICE_INFO,
        ACTIVITY,
        FILE_CREATOR,
        HRV,
        FIELD_DESCRIPTION,
        DEVELOPER_DATA_ID,
    ]
}
