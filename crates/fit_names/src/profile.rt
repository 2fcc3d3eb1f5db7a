//! The profile: the names of messages, and the names, units, scales and offsets of their fields.
ghost use Rattle.std.specs.Prelude.{◌≡◌, ◌≤◌, option_map, option_and_then, length, IfSome};
ghost use Rattle.fit_names.specs.Names as names;
ghost use Rattle.fit_names.specs.Names.{meaning, field_of, message_of};
ghost use Rattle.fit_names.specs.Profile as profile;
ghost use Rattle.fit_numbers.specs.Scaled.{IsScale};

/// What the profile says of a field. A number `raw` of the field means `raw / scale - offset` units.
#[derive(Clone, Copy, Debug, PartialEq, Eq)]
pub struct Info {
    pub name: &'static str,
    /// Empty where the profile names none.
    pub unit: &'static str,
    pub scale: u32,
    pub offset: u32,
}

#[inline(always)]
fn field(name: &'static str, unit: &'static str, scale: u32, offset: u32) -> Info
    ensures { meaning result ≡
        record { name = name.now; unit = unit.now; scale = scale; offset = offset } }
{
    Info {
        name,
        unit,
        scale,
        offset,
    }
}

#[inline(always)]
fn file_id(number: u8) -> Option<Info>
    ensures { option_map meaning result ≡ field_of profile.file_id.fields number }
{
    let info = match number {
        0 => field("type", "", 1, 0),
        1 => field("manufacturer", "", 1, 0),
        2 => field("product", "", 1, 0),
        3 => field("serial_number", "", 1, 0),
        4 => field("time_created", "s", 1, 0),
        5 => field("number", "", 1, 0),
        8 => field("product_name", "", 1, 0),
        _ => return None,
    };
    Some(info)
}

#[inline(always)]
fn sport(number: u8) -> Option<Info>
    ensures { option_map meaning result ≡ field_of profile.sport.fields number }
{
    let info = match number {
        0 => field("sport", "", 1, 0),
        1 => field("sub_sport", "", 1, 0),
        3 => field("name", "", 1, 0),
        _ => return None,
    };
    Some(info)
}

#[inline(always)]
fn session(number: u8) -> Option<Info>
    ensures { option_map meaning result ≡ field_of profile.session.fields number }
{
    let info = match number {
        0 => field("event", "", 1, 0),
        1 => field("event_type", "", 1, 0),
        2 => field("start_time", "s", 1, 0),
        3 => field("start_position_lat", "semicircles", 1, 0),
        4 => field("start_position_long", "semicircles", 1, 0),
        5 => field("sport", "", 1, 0),
        6 => field("sub_sport", "", 1, 0),
        7 => field("total_elapsed_time", "s", 1000, 0),
        8 => field("total_timer_time", "s", 1000, 0),
        9 => field("total_distance", "m", 100, 0),
        10 => field("total_cycles", "cycles", 1, 0),
        11 => field("total_calories", "kcal", 1, 0),
        14 => field("avg_speed", "m/s", 1000, 0),
        15 => field("max_speed", "m/s", 1000, 0),
        16 => field("avg_heart_rate", "bpm", 1, 0),
        17 => field("max_heart_rate", "bpm", 1, 0),
        18 => field("avg_cadence", "rpm", 1, 0),
        19 => field("max_cadence", "rpm", 1, 0),
        20 => field("avg_power", "watts", 1, 0),
        21 => field("max_power", "watts", 1, 0),
        22 => field("total_ascent", "m", 1, 0),
        23 => field("total_descent", "m", 1, 0),
        25 => field("first_lap_index", "", 1, 0),
        26 => field("num_laps", "", 1, 0),
        28 => field("trigger", "", 1, 0),
        _ => return None,
    };
    Some(info)
}

#[inline(always)]
fn lap(number: u8) -> Option<Info>
    ensures { option_map meaning result ≡ field_of profile.lap.fields number }
{
    let info = match number {
        0 => field("event", "", 1, 0),
        1 => field("event_type", "", 1, 0),
        2 => field("start_time", "s", 1, 0),
        3 => field("start_position_lat", "semicircles", 1, 0),
        4 => field("start_position_long", "semicircles", 1, 0),
        5 => field("end_position_lat", "semicircles", 1, 0),
        6 => field("end_position_long", "semicircles", 1, 0),
        7 => field("total_elapsed_time", "s", 1000, 0),
        8 => field("total_timer_time", "s", 1000, 0),
        9 => field("total_distance", "m", 100, 0),
        10 => field("total_cycles", "cycles", 1, 0),
        11 => field("total_calories", "kcal", 1, 0),
        13 => field("avg_speed", "m/s", 1000, 0),
        14 => field("max_speed", "m/s", 1000, 0),
        15 => field("avg_heart_rate", "bpm", 1, 0),
        16 => field("max_heart_rate", "bpm", 1, 0),
        17 => field("avg_cadence", "rpm", 1, 0),
        18 => field("max_cadence", "rpm", 1, 0),
        19 => field("avg_power", "watts", 1, 0),
        20 => field("max_power", "watts", 1, 0),
        21 => field("total_ascent", "m", 1, 0),
        22 => field("total_descent", "m", 1, 0),
        23 => field("intensity", "", 1, 0),
        24 => field("lap_trigger", "", 1, 0),
        25 => field("sport", "", 1, 0),
        _ => return None,
    };
    Some(info)
}

#[inline(always)]
fn record_message(number: u8) -> Option<Info>
    ensures { option_map meaning result ≡ field_of profile.record_message.fields number }
{
    let info = match number {
        0 => field("position_lat", "semicircles", 1, 0),
        1 => field("position_long", "semicircles", 1, 0),
        2 => field("altitude", "m", 5, 500),
        3 => field("heart_rate", "bpm", 1, 0),
        4 => field("cadence", "rpm", 1, 0),
        5 => field("distance", "m", 100, 0),
        6 => field("speed", "m/s", 1000, 0),
        7 => field("power", "watts", 1, 0),
        8 => field("compressed_speed_distance", "", 1, 0),
        9 => field("grade", "%", 100, 0),
        11 => field("time_from_course", "s", 1000, 0),
        13 => field("temperature", "C", 1, 0),
        18 => field("cycles", "cycles", 1, 0),
        19 => field("total_cycles", "cycles", 1, 0),
        28 => field("compressed_accumulated_power", "watts", 1, 0),
        29 => field("accumulated_power", "watts", 1, 0),
        32 => field("vertical_speed", "m/s", 1000, 0),
        33 => field("calories", "kcal", 1, 0),
        39 => field("vertical_oscillation", "mm", 10, 0),
        41 => field("stance_time", "ms", 10, 0),
        73 => field("enhanced_speed", "m/s", 1000, 0),
        78 => field("enhanced_altitude", "m", 5, 500),
        _ => return None,
    };
    Some(info)
}

#[inline(always)]
fn event(number: u8) -> Option<Info>
    ensures { option_map meaning result ≡ field_of profile.event.fields number }
{
    let info = match number {
        0 => field("event", "", 1, 0),
        1 => field("event_type", "", 1, 0),
        2 => field("data16", "", 1, 0),
        3 => field("data", "", 1, 0),
        4 => field("event_group", "", 1, 0),
        _ => return None,
    };
    Some(info)
}

#[inline(always)]
fn device_info(number: u8) -> Option<Info>
    ensures { option_map meaning result ≡ field_of profile.device_info.fields number }
{
    let info = match number {
        0 => field("device_index", "", 1, 0),
        1 => field("device_type", "", 1, 0),
        2 => field("manufacturer", "", 1, 0),
        3 => field("serial_number", "", 1, 0),
        4 => field("product", "", 1, 0),
        5 => field("software_version", "", 100, 0),
        6 => field("hardware_version", "", 1, 0),
        7 => field("cum_operating_time", "s", 1, 0),
        10 => field("battery_voltage", "V", 256, 0),
        11 => field("battery_status", "", 1, 0),
        _ => return None,
    };
    Some(info)
}

#[inline(always)]
fn activity(number: u8) -> Option<Info>
    ensures { option_map meaning result ≡ field_of profile.activity.fields number }
{
    let info = match number {
        0 => field("total_timer_time", "s", 1000, 0),
        1 => field("num_sessions", "", 1, 0),
        2 => field("type", "", 1, 0),
        3 => field("event", "", 1, 0),
        4 => field("event_type", "", 1, 0),
        5 => field("local_timestamp", "s", 1, 0),
        _ => return None,
    };
    Some(info)
}

#[inline(always)]
fn file_creator(number: u8) -> Option<Info>
    ensures { option_map meaning result ≡ field_of profile.file_creator.fields number }
{
    let info = match number {
        0 => field("software_version", "", 1, 0),
        1 => field("hardware_version", "", 1, 0),
        _ => return None,
    };
    Some(info)
}

#[inline(always)]
fn hrv(number: u8) -> Option<Info>
    ensures { option_map meaning result ≡ field_of profile.hrv.fields number }
{
    let info = match number {
        0 => field("time", "s", 1000, 0),
        _ => return None,
    };
    Some(info)
}

#[inline(always)]
fn field_description(number: u8) -> Option<Info>
    ensures { option_map meaning result ≡ field_of profile.field_description.fields number }
{
    let info = match number {
        0 => field("developer_data_index", "", 1, 0),
        1 => field("field_definition_number", "", 1, 0),
        2 => field("fit_base_type_id", "", 1, 0),
        3 => field("field_name", "", 1, 0),
        8 => field("units", "", 1, 0),
        _ => return None,
    };
    Some(info)
}

#[inline(always)]
fn developer_data_id(number: u8) -> Option<Info>
    ensures { option_map meaning result ≡ field_of profile.developer_data_id.fields number }
{
    let info = match number {
        1 => field("application_id", "", 1, 0),
        3 => field("developer_data_index", "", 1, 0),
        4 => field("application_version", "", 1, 0),
        _ => return None,
    };
    Some(info)
}

/// The name of a message by its global message number, where the profile lists it.
pub fn message_name(global: u16) -> Option<&'static str>
    ensures table { option_map (λ n. n.now) result ≡ names.message_name global }
    ensures short { IfSome result (λ n. length n.now ≤ 32) }
{
    let name = match global {
        0 => "file_id",
        12 => "sport",
        18 => "session",
        19 => "lap",
        20 => "record",
        21 => "event",
        23 => "device_info",
        34 => "activity",
        49 => "file_creator",
        78 => "hrv",
        206 => "field_description",
        207 => "developer_data_id",
        _ => return None,
    };
    Some(name)
}

/// A field that is listed for its message.
#[inline(always)]
fn listed(global: u16, number: u8) -> Option<Info>
    ensures { option_map meaning result ≡ option_and_then (λ m. field_of m.fields number)
        (message_of global) }
{
    match global {
        0 => file_id(number),
        12 => sport(number),
        18 => session(number),
        19 => lap(number),
        20 => record_message(number),
        21 => event(number),
        23 => device_info(number),
        34 => activity(number),
        49 => file_creator(number),
        78 => hrv(number),
        206 => field_description(number),
        207 => developer_data_id(number),
        _ => None,
    }
}

/// The same as `field_info`, within its caller: what that doesn't ask for isn't looked up.
#[inline(always)]
pub(crate) fn info_of(global: u16, number: u8) -> Option<Info>
    ensures table { option_map meaning result ≡ names.field global number }
    ensures scale { IfSome result (λ i. IsScale i.scale) }
    ensures short { IfSome result (λ i. length i.name.now ≤ 32) }
{
    match number {
        253 => Some(field("timestamp", "s", 1, 0)),
        254 => {
            message_name(global)?;
            Some(field("message_index", "", 1, 0))
        }
        _ => listed(global, number),
    }
}

/// What the profile says of a field. Field 253 is `timestamp` in every message, and field 254
/// `message_index` in every message that the profile lists; all others are None where they aren't listed.
pub fn field_info(global: u16, number: u8) -> Option<Info>
    ensures table { option_map meaning result ≡ names.field global number }
    ensures scale { IfSome result (λ i. IsScale i.scale) }
    ensures short { IfSome result (λ i. length i.name.now ≤ 32) }
{
    info_of(global, number)
}
