//! Names, scaled values, positions and instants that are known from outside.
use crate::asserts::equal;
use arrayvec::ArrayString;
use fit_profile::{
    Fixed, degrees, field_info, field_label, fixed, message_label, message_name, utc_text,
};
use test_known::protocol::{ALTITUDE, BATTERY_VOLTAGE, DEVICE_INFO, HRV, HRV_TIME, RECORD};

#[test]
fn names_and_labels(rt: HostRuntime) {
    equal(&rt, &message_name(207), &Some("developer_data_id"));
    equal(&rt, &message_name(1), &None);
    equal(&rt, &message_label(20).as_str(), &"record");
    equal(&rt, &message_label(65535).as_str(), &"message_65535");
    equal(
        &rt,
        &field_label(20, 28).as_str(),
        &"compressed_accumulated_power",
    );
    equal(&rt, &field_label(20, 254).as_str(), &"message_index");
    equal(&rt, &field_label(1, 253).as_str(), &"timestamp");
    equal(&rt, &field_label(1, 254).as_str(), &"field_254");
}

/// The text of a raw value of a field.
fn text_of(global: u16, number: u8, raw: i64) -> Option<ArrayString<48>> {
    Some(fixed(i128::from(raw), field_info(global, number)?).print())
}

#[test]
fn scaled_values(rt: HostRuntime) {
    for (global, number, raw, text) in [
        (RECORD, ALTITUDE, 2500i64, "0.0"),
        (RECORD, ALTITUDE, 2499, "-0.2"),
        (RECORD, ALTITUDE, 0, "-500.0"),
        (RECORD, ALTITUDE, i64::MIN, "-1844674407370955661.6"),
        (HRV, HRV_TIME, 812, "0.812"),
        (HRV, HRV_TIME, 0, "0.000"),
        (DEVICE_INFO, BATTERY_VOLTAGE, 956, "3.73437500"),
    ] {
        match text_of(global, number, raw) {
            Some(is) => equal(&rt, &is.as_str(), &text),
            None => assert!(rt; false),
        }
    }
}

#[test]
fn greatest_scaled_value(rt: HostRuntime) {
    match field_info(DEVICE_INFO, BATTERY_VOLTAGE) {
        Some(voltage) => {
            let value = fixed(i128::from(u64::MAX), voltage);
            equal(&rt, &value.print().as_str(), &"72057594037927935.99609375");
        }
        None => assert!(rt; false),
    }
}

#[test]
fn positions(rt: HostRuntime) {
    for (semicircles, text) in [
        (-2147483648i32, "-180.0000000"),
        (1, "0.0000001"),
        (3, "0.0000003"),
        (4, "0.0000003"),
        (2097152, "0.1757813"),
        (-2097152, "-0.1757813"),
    ] {
        equal(&rt, &degrees(semicircles).print().as_str(), &text);
    }
}

#[test]
fn instants(rt: HostRuntime) {
    for (instant, text) in [
        (1_000_000_000, "2021-09-08T01:46:40Z"),
        (268_435_456, "1998-07-03T21:24:16Z"),
        (268_435_455, "system+268435455"),
        (4_294_967_295, "2126-02-06T06:28:15Z"),
    ] {
        equal(&rt, &utc_text(instant).as_str(), &text);
    }
}

#[test]
fn texts_of_numbers(rt: HostRuntime) {
    for (value, decimals, text) in [
        (0i128, 0u8, "0"),
        (-2, 1, "-0.2"),
        (i128::MIN, 8, "-1701411834604692317316873037158.84105728"),
        (i128::MAX, 0, "170141183460469231731687303715884105727"),
    ] {
        let number = Fixed { value, decimals };
        equal(&rt, &number.print().as_str(), &text);
        equal(&rt, &Fixed::scan(text, decimals), &Some(number));
    }
}

#[test]
fn texts_of_no_number(rt: HostRuntime) {
    for (text, decimals) in [
        ("007", 0u8),
        ("-0.0", 1),
        ("", 0),
        ("-", 0),
        ("1.", 0),
        ("1.0", 0),
        ("1", 1),
        ("+1", 0),
        (" 1", 0),
        ("170141183460469231731687303715884105728", 0),
        ("9999999999999999999999999999999999999999999999999", 0),
    ] {
        equal(&rt, &Fixed::scan(text, decimals), &None);
    }
}
