//! Values, times and developer fields, as rows that come back, shown, and in a table.

use crate::tests::failing::{READING, text_of};
use crate::tests::{TABLE_HEAD, answer_of, both_ways, bytes_of, expect, expect_of};
use fit_run::Command;
use test_known::fields::{kinds, two_fields};

/// Three altitudes, times of hrv, a battery's voltage, and two product names, one without bytes and one that begins as hexadecimal digits do.
const VALUES: &str =
    "0E 20 00 00 41 00 00 00 2E 46 49 54 59 79 40 00 00 14 00 03 02 02 84 02 02 84 02 02 84 00 C4 09 C3 09 FF FF \
     41 00 00 4E 00 01 00 06 84 01 2C 03 FF FF 00 00 42 00 00 17 00 01 0A 02 84 02 BC 03 \
     43 00 00 00 00 02 08 00 07 08 02 07 03 30 78 D3 97";

const VALUES_TEXT: &str =
    "row,a,b,c,d,e,f\nfile,14,32,0,sum,,\ndef,0,0,little,20,3,\nfdef,2,2,132,,,\nfdef,2,2,132,,,\nfdef,2,2,132,,,\n\
     data,0,,record,,,\nfield,altitude,0.0,m,,,\nfield,altitude,-0.2,m,,,\nfield,altitude,,m,,,\n\
     def,1,0,little,78,1,\nfdef,0,6,132,,,\ndata,1,,hrv,,,\nfield,time,0.812||0.000,s,,,\n\
     def,2,0,little,23,1,\nfdef,10,2,132,,,\ndata,2,,device_info,,,\nfield,battery_voltage,3.73437500,V,,,\n\
     def,3,0,little,0,2,\nfdef,8,0,7,,,\nfdef,8,2,7,,,\ndata,3,,file_id,,,\nfield,product_name,,,,,\n\
     field,product_name,0x3078,,,,\nend,,,,,,\n";

/// A number of an odd size, and a field of an unknown base type.
const ODD: &str =
    "0E 20 00 00 15 00 00 00 2E 46 49 54 5D B6 40 00 00 14 00 02 05 06 86 07 02 1F 00 01 02 03 04 05 06 07 08 80 41";

const ODD_TEXT: &str =
    "row,a,b,c,d,e,f\nfile,14,32,0,sum,,\ndef,0,0,little,20,2,\nfdef,5,6,134,,,\nfdef,7,2,31,,,\n\
     data,0,,record,,,\nfield,distance,0x010203040506,m,,,\nfield,power,0x0708,watts,,,\nend,,,,,,\n";

/// Compressed timestamp headers before any timestamp, after one, and where the time passes the greatest number.
const TIMES: &str =
    "0E 20 00 00 22 00 00 00 2E 46 49 54 1F 44 40 00 00 14 00 01 FD 04 86 41 00 00 14 00 00 A2 00 1F CA 9A 3B BF A2 \
     00 FF FF FF FF 00 FE FF FF FF A0 BD 92";

const TIMES_TEXT: &str =
    "row,a,b,c,d,e,f\nfile,14,32,0,sum,,\ndef,0,0,little,20,1,\nfdef,253,4,134,,,\ndef,1,0,little,20,0,\n\
     data,1,2,record,,,\ndata,0,,record,,,\nfield,timestamp,1000000031,s,,,\n\
     data,1,31,record,2021-09-08T01:47:11Z,,\ndata,1,2,record,2021-09-08T01:47:14Z,,\n\
     data,0,,record,,,\nfield,timestamp,,s,,,\ndata,0,,record,,,\nfield,timestamp,4294967294,s,,,\n\
     data,1,0,record,system+0,,\nend,,,,,,\n";

/// A definition with a part for developer fields, which has none.
const NO_DEVELOPER_FIELDS: &str =
    "0E 20 00 00 08 00 00 00 2E 46 49 54 9D 23 60 00 00 14 00 00 00 00 36 2B";

const NO_DEVELOPER_FIELDS_TEXT: &str =
    "row,a,b,c,d,e,f\nfile,14,32,0,sum,,\ndef,0,0,little,20,0,0\ndata,0,,record,,,\nend,,,,,,\n";

#[test]
fn rows(rt: HostRuntime) {
    for (input, text) in [
        (VALUES, VALUES_TEXT),
        (ODD, ODD_TEXT),
        (TIMES, TIMES_TEXT),
        (NO_DEVELOPER_FIELDS, NO_DEVELOPER_FIELDS_TEXT),
    ] {
        let bytes = bytes_of(&rt, rt.alloc(), input);
        both_ways(&rt, rt.alloc(), bytes.as_slice(), text);
    }
}

/// Two described developer fields, and values of many kinds.
#[test]
fn kinds_of_fields(rt: HostRuntime) {
    for known in [two_fields(), kinds()] {
        both_ways(&rt, rt.alloc(), known.bytes, known.text);
        for command in READING {
            let output = text_of(&rt, rt.alloc(), &known, command);
            let mut source = known.bytes;
            let answer = answer_of(rt.alloc(), command, &mut source, 2048);
            expect(&rt, &answer, known.name, output.as_bytes(), "", 0);
        }
    }
}

#[test]
fn descriptions(rt: HostRuntime) {
    for (input, output) in [
        // The number of the described field has two items, so nothing is described.
        (
            "0E 20 00 00 21 00 00 00 2E 46 49 54 5F 51 40 00 00 CE 00 03 00 01 02 01 02 02 02 01 02 00 00 05 05 84 \
             61 00 00 14 00 00 01 05 02 00 01 34 12 20 A5",
            "file 1: header 14, protocol 32, profile 0, data 33, sum\n  define 0 field_description little 3 0\n  \
             0 field_description: developer_data_index=0, field_definition_number=5|5, fit_base_type_id=132\n  \
             define 1 record little 0 1\n  1 record: dev_0_5=0x3412\nok\n",
        ),
        // Of two indices the first one counts.
        (
            "0E 20 00 00 29 00 00 00 2E 46 49 54 5E F7 40 00 00 CE 00 04 00 01 02 00 01 02 01 01 02 02 01 02 \
             00 00 09 05 84 61 00 00 14 00 00 02 05 02 00 05 02 09 01 34 12 34 12 53 56",
            "file 1: header 14, protocol 32, profile 0, data 41, sum\n  define 0 field_description little 4 0\n  \
             0 field_description: developer_data_index=0, developer_data_index=9, field_definition_number=5, \
             fit_base_type_id=132\n  define 1 record little 0 2\n  1 record: dev_0_5=4660, dev_9_5=0x3412\nok\n",
        ),
    ] {
        expect_of(&rt, rt.alloc(), Command::Show, input, output, "", 0);
    }
}

/// A compressed distance, one whose counter has wrapped, and one that is skipped.
#[test]
fn distances(rt: HostRuntime) {
    let input = "0E 20 00 00 15 00 00 00 2E 46 49 54 5D B6 40 00 00 14 00 01 08 03 0D \
                 00 64 00 10 00 64 00 00 00 FF FF FF E0 5F";
    let rows = "1,,,,,16.0000,1.00,,,,\n1,,,,,256.0000,1.00,,,,\n1,,,,,,,,,,\n";
    let output = format!(in rt.alloc(); "{TABLE_HEAD}{rows}").expect(&rt, "memory");
    let output = output.as_str();
    expect_of(&rt, rt.alloc(), Command::Table, input, output, "", 0);
}
