//! Known files and what they are as text. The suites and the programs of the tests take their inputs from here.
#![tactic(auto)]

mod big;
pub mod fields;
pub mod protocol;

pub use big::{LONGEST, longest};

/// A file, or a chain of files, and what is made of it.
#[derive(Clone, Copy)]
pub struct Known {
    pub name: &'static str,
    pub bytes: &'static [u8],
    /// How many bytes the first file has.
    pub first: usize,
    /// Where its headers, records and files end, in order.
    pub ends: &'static [End],
    /// What `check` writes.
    pub checked: &'static str,
    /// What `show` writes.
    pub shown: &'static str,
    /// Its CSV text.
    pub text: &'static str,
    /// The rows of its table after the first line.
    pub table: &'static str,
}

/// An end of a header, a record or a file: after how many bytes, and how many lines of `check`, of `show`, of the CSV text and of the
/// table after its first line are written then.
pub type End = (usize, usize, usize, usize, usize);

/// The first line of a CSV text.
pub const FIRST_ROW: &str = "row,a,b,c,d,e,f\n";

/// The first line of a table.
pub const TABLE_HEAD: &str =
    "file,timestamp,position_lat,position_long,altitude,distance,speed,heart_rate,cadence,power,temperature\n";

/// No records, and the checksum of the header.
pub const EMPTY: [u8; 16] = *b"\x0E \0\0\0\0\0\0.FIT\x9C\x85\0\0";

/// No records, and zeros for the checksum of the header.
pub const EMPTY_WITH_ZEROS: [u8; 16] = *b"\x0E \0\0\0\0\0\0.FIT\0\0\xA8\xA3";

/// No records, and a header of 12 bytes.
pub const SHORT: [u8; 14] = *b"\x0C \0\0\0\0\0\0.FITeB";

/// No records, and a header of 16 bytes.
pub const LONG: [u8; 18] = *b"\x10 \0\0\0\0\0\0.FIT\xB4\xADAB\xB0a";

/// A definition message without fields, and a data message of one byte.
pub const ONE_BYTE_MESSAGE: [u8; 23] = *b"\x0E \0\0\x07\0\0\0.FIT\xDDc@\0\0\x14\0\0\0D4";

/// Messages of both architectures, and one with a compressed timestamp.
pub const BOTH_ORDERS: [u8; 52] = *b"\x0E \0\0$\0\0\0.FIT\x9Fn@\0\0\x14\0\x02\xFD\x04\x86\x03\
    \x01\x02\0\x1F\xCA\x9A;xA\0\x01\0\x14\x02\x02\x02\x84\x08\x03\x0D\xA2\x09\xC4d\
    \0\x10\xF0;";

/// A developer field before its description and after it.
pub const DEVELOPER_FIELD: [u8; 70] = *b"\x0E \0\06\0\0\0.FIT\x1F\xBB@\0\0\xCE\0\x04\0\x01\x02\x01\
    \x01\x02\x02\x01\x02\x03\x03\x07a\0\0\x14\0\0\x01\x05\x02\0\x014\x12\0\0\x05\
    \x84mo\0\x014\x12a\0\0\x14\0\0\x01\x05\x02\0\x014\x12J\x8B";

/// A chain of the two.
pub const BOTH: [u8; 122] = *b"\x0E \0\0$\0\0\0.FIT\x9Fn@\0\0\x14\0\x02\xFD\x04\x86\x03\
    \x01\x02\0\x1F\xCA\x9A;xA\0\x01\0\x14\x02\x02\x02\x84\x08\x03\x0D\xA2\x09\xC4d\
    \0\x10\xF0;\x0E \0\06\0\0\0.FIT\x1F\xBB@\0\0\xCE\0\x04\
    \0\x01\x02\x01\x01\x02\x02\x01\x02\x03\x03\x07a\0\0\x14\0\0\x01\x05\x02\0\x014\
    \x12\0\0\x05\x84mo\0\x014\x12a\0\0\x14\0\0\x01\x05\x02\0\x014\x12\
    J\x8B";

/// The checksum of this header is 0.
pub const TRUE_ZERO: [u8; 16] = *b"\x0E\x20\x8D\xB5\0\0\0\0.FIT\0\0\0\0";

/// What `show` writes of it.
pub const EMPTY_SHOWN: &str = "file 1: header 14, protocol 32, profile 0, data 0, sum\n\
     ok\n";

/// Its CSV text.
pub const EMPTY_TEXT: &str = "row,a,b,c,d,e,f\n\
     file,14,32,0,sum,,\n\
     end,,,,,,\n";

/// What `show` writes of it.
pub const EMPTY_WITH_ZEROS_SHOWN: &str = "file 1: header 14, protocol 32, profile 0, data 0, zero\n\
     ok\n";

/// Its CSV text.
pub const EMPTY_WITH_ZEROS_TEXT: &str = "row,a,b,c,d,e,f\n\
     file,14,32,0,zero,,\n\
     end,,,,,,\n";

/// What `show` writes of it.
pub const SHORT_SHOWN: &str = "file 1: header 12, protocol 32, profile 0, data 0, none\n\
     ok\n";

/// Its CSV text.
pub const SHORT_TEXT: &str = "row,a,b,c,d,e,f\n\
     file,12,32,0,none,,\n\
     end,,,,,,\n";

/// What `show` writes of it.
pub const LONG_SHOWN: &str = "file 1: header 16, protocol 32, profile 0, data 0, sum\n\
     ok\n";

/// Its CSV text.
pub const LONG_TEXT: &str = "row,a,b,c,d,e,f\n\
     file,16,32,0,sum,0x4142,\n\
     end,,,,,,\n";

/// What `show` writes of it.
pub const ONE_BYTE_MESSAGE_SHOWN: &str = "file 1: header 14, protocol 32, profile 0, data 7, sum\n\
     \x20 define 0 record little 0 0\n\
     \x20 0 record\n\
     ok\n";

/// Its CSV text.
pub const ONE_BYTE_MESSAGE_TEXT: &str = "row,a,b,c,d,e,f\n\
     file,14,32,0,sum,,\n\
     def,0,0,little,20,0,\n\
     data,0,,record,,,\n\
     end,,,,,,\n";

/// What `show` writes of it.
pub const BOTH_ORDERS_SHOWN: &str = "file 1: header 14, protocol 32, profile 0, data 36, sum\n\
     \x20 define 0 record little 2 0\n\
     \x20 0 record 2021-09-08T01:47:11Z: timestamp=1000000031 s, heart_rate=120 bpm\n\
     \x20 define 1 record big 2 0\n\
     \x20 1 record 2021-09-08T01:47:14Z: altitude=0.0 m, compressed_speed_distance=0x640010\n\
     ok\n";

/// Its CSV text.
pub const BOTH_ORDERS_TEXT: &str = "row,a,b,c,d,e,f\n\
     file,14,32,0,sum,,\n\
     def,0,0,little,20,2,\n\
     fdef,253,4,134,,,\n\
     fdef,3,1,2,,,\n\
     data,0,,record,,,\n\
     field,timestamp,1000000031,s,,,\n\
     field,heart_rate,120,bpm,,,\n\
     def,1,0,big,20,2,\n\
     fdef,2,2,132,,,\n\
     fdef,8,3,13,,,\n\
     data,1,2,record,2021-09-08T01:47:14Z,,\n\
     field,altitude,0.0,m,,,\n\
     field,compressed_speed_distance,0x640010,,,,\n\
     end,,,,,,\n";

/// What `show` writes of it.
pub const DEVELOPER_FIELD_SHOWN: &str = "file 1: header 14, protocol 32, profile 0, data 54, sum\n\
     \x20 define 0 field_description little 4 0\n\
     \x20 define 1 record little 0 1\n\
     \x20 1 record: dev_0_5=0x3412\n\
     \x20 0 field_description: developer_data_index=0, field_definition_number=5, fit_base_type_id=132, field_name=mo\n\
     \x20 1 record: dev_0_5=0x3412\n\
     \x20 define 1 record little 0 1\n\
     \x20 1 record: mo=4660\n\
     ok\n";

/// Its CSV text.
pub const DEVELOPER_FIELD_TEXT: &str = "row,a,b,c,d,e,f\n\
     file,14,32,0,sum,,\n\
     def,0,0,little,206,4,\n\
     fdef,0,1,2,,,\n\
     fdef,1,1,2,,,\n\
     fdef,2,1,2,,,\n\
     fdef,3,3,7,,,\n\
     def,1,0,little,20,0,1\n\
     ddef,5,2,0,,,\n\
     data,1,,record,,,\n\
     dev,dev_0_5,0x3412,,,,\n\
     data,0,,field_description,,,\n\
     field,developer_data_index,0,,,,\n\
     field,field_definition_number,5,,,,\n\
     field,fit_base_type_id,132,,,,\n\
     field,field_name,mo,,,,\n\
     data,1,,record,,,\n\
     dev,dev_0_5,0x3412,,,,\n\
     def,1,0,little,20,0,1\n\
     ddef,5,2,0,,,\n\
     data,1,,record,,,\n\
     dev,mo,4660,,,,\n\
     end,,,,,,\n";

/// What `show` writes of it.
pub const BOTH_SHOWN: &str = "file 1: header 14, protocol 32, profile 0, data 36, sum\n\
     \x20 define 0 record little 2 0\n\
     \x20 0 record 2021-09-08T01:47:11Z: timestamp=1000000031 s, heart_rate=120 bpm\n\
     \x20 define 1 record big 2 0\n\
     \x20 1 record 2021-09-08T01:47:14Z: altitude=0.0 m, compressed_speed_distance=0x640010\n\
     file 2: header 14, protocol 32, profile 0, data 54, sum\n\
     \x20 define 0 field_description little 4 0\n\
     \x20 define 1 record little 0 1\n\
     \x20 1 record: dev_0_5=0x3412\n\
     \x20 0 field_description: developer_data_index=0, field_definition_number=5, fit_base_type_id=132, field_name=mo\n\
     \x20 1 record: dev_0_5=0x3412\n\
     \x20 define 1 record little 0 1\n\
     \x20 1 record: mo=4660\n\
     ok\n";

/// Its CSV text.
pub const BOTH_TEXT: &str = "row,a,b,c,d,e,f\n\
     file,14,32,0,sum,,\n\
     def,0,0,little,20,2,\n\
     fdef,253,4,134,,,\n\
     fdef,3,1,2,,,\n\
     data,0,,record,,,\n\
     field,timestamp,1000000031,s,,,\n\
     field,heart_rate,120,bpm,,,\n\
     def,1,0,big,20,2,\n\
     fdef,2,2,132,,,\n\
     fdef,8,3,13,,,\n\
     data,1,2,record,2021-09-08T01:47:14Z,,\n\
     field,altitude,0.0,m,,,\n\
     field,compressed_speed_distance,0x640010,,,,\n\
     end,,,,,,\n\
     file,14,32,0,sum,,\n\
     def,0,0,little,206,4,\n\
     fdef,0,1,2,,,\n\
     fdef,1,1,2,,,\n\
     fdef,2,1,2,,,\n\
     fdef,3,3,7,,,\n\
     def,1,0,little,20,0,1\n\
     ddef,5,2,0,,,\n\
     data,1,,record,,,\n\
     dev,dev_0_5,0x3412,,,,\n\
     data,0,,field_description,,,\n\
     field,developer_data_index,0,,,,\n\
     field,field_definition_number,5,,,,\n\
     field,fit_base_type_id,132,,,,\n\
     field,field_name,mo,,,,\n\
     data,1,,record,,,\n\
     dev,dev_0_5,0x3412,,,,\n\
     def,1,0,little,20,0,1\n\
     ddef,5,2,0,,,\n\
     data,1,,record,,,\n\
     dev,mo,4660,,,,\n\
     end,,,,,,\n";

const KNOWN_EMPTY: Known = Known {
    name: "empty",
    bytes: &EMPTY,
    first: 16,
    ends: &[(14, 0, 1, 2, 0), (16, 1, 1, 3, 0)],
    checked: "file 1: 0 data bytes, 0 records\nok\n",
    shown: EMPTY_SHOWN,
    text: EMPTY_TEXT,
    table: "",
};

const KNOWN_ZEROS: Known = Known {
    name: "zeros",
    bytes: &EMPTY_WITH_ZEROS,
    first: 16,
    ends: &[(14, 0, 1, 2, 0), (16, 1, 1, 3, 0)],
    checked: "file 1: 0 data bytes, 0 records\nok\n",
    shown: EMPTY_WITH_ZEROS_SHOWN,
    text: EMPTY_WITH_ZEROS_TEXT,
    table: "",
};

const KNOWN_SHORT: Known = Known {
    name: "short",
    bytes: &SHORT,
    first: 14,
    ends: &[(12, 0, 1, 2, 0), (14, 1, 1, 3, 0)],
    checked: "file 1: 0 data bytes, 0 records\nok\n",
    shown: SHORT_SHOWN,
    text: SHORT_TEXT,
    table: "",
};

const KNOWN_LONG: Known = Known {
    name: "long",
    bytes: &LONG,
    first: 18,
    ends: &[(16, 0, 1, 2, 0), (18, 1, 1, 3, 0)],
    checked: "file 1: 0 data bytes, 0 records\nok\n",
    shown: LONG_SHOWN,
    text: LONG_TEXT,
    table: "",
};

const KNOWN_MESSAGE: Known = Known {
    name: "message",
    bytes: &ONE_BYTE_MESSAGE,
    first: 23,
    ends: &[
        (14, 0, 1, 2, 0),
        (20, 0, 2, 3, 0),
        (21, 0, 3, 4, 1),
        (23, 1, 3, 5, 1),
    ],
    checked: "file 1: 7 data bytes, 2 records\nok\n",
    shown: ONE_BYTE_MESSAGE_SHOWN,
    text: ONE_BYTE_MESSAGE_TEXT,
    table: "1,,,,,,,,,,\n",
};

const KNOWN_ORDERS: Known = Known {
    name: "orders",
    bytes: &BOTH_ORDERS,
    first: 52,
    ends: &[
        (14, 0, 1, 2, 0),
        (26, 0, 2, 5, 0),
        (32, 0, 3, 8, 1),
        (44, 0, 4, 11, 1),
        (50, 0, 5, 14, 2),
        (52, 1, 5, 15, 2),
    ],
    checked: "file 1: 36 data bytes, 4 records\nok\n",
    shown: BOTH_ORDERS_SHOWN,
    text: BOTH_ORDERS_TEXT,
    table: "1,2021-09-08T01:47:11Z,,,,,,120,,,\n1,2021-09-08T01:47:14Z,,,0.0,16.0000,1.00,,,,\n",
};

const KNOWN_DEVELOPER: Known = Known {
    name: "developer",
    bytes: &DEVELOPER_FIELD,
    first: 70,
    ends: &[
        (14, 0, 1, 2, 0),
        (32, 0, 2, 7, 0),
        (42, 0, 3, 9, 0),
        (45, 0, 4, 11, 1),
        (52, 0, 5, 16, 1),
        (55, 0, 6, 18, 2),
        (65, 0, 7, 20, 2),
        (68, 0, 8, 22, 3),
        (70, 1, 8, 23, 3),
    ],
    checked: "file 1: 54 data bytes, 7 records\nok\n",
    shown: DEVELOPER_FIELD_SHOWN,
    text: DEVELOPER_FIELD_TEXT,
    table: "1,,,,,,,,,,\n1,,,,,,,,,,\n1,,,,,,,,,,\n",
};

const KNOWN_BOTH: Known = Known {
    name: "both",
    bytes: &BOTH,
    first: 52,
    ends: &[
        (14, 0, 1, 2, 0),
        (26, 0, 2, 5, 0),
        (32, 0, 3, 8, 1),
        (44, 0, 4, 11, 1),
        (50, 0, 5, 14, 2),
        (52, 1, 5, 15, 2),
        (66, 1, 6, 16, 2),
        (84, 1, 7, 21, 2),
        (94, 1, 8, 23, 2),
        (97, 1, 9, 25, 3),
        (104, 1, 10, 30, 3),
        (107, 1, 11, 32, 4),
        (117, 1, 12, 34, 4),
        (120, 1, 13, 36, 5),
        (122, 2, 13, 37, 5),
    ],
    checked: "file 1: 36 data bytes, 4 records\nfile 2: 54 data bytes, 7 records\nok\n",
    shown: BOTH_SHOWN,
    text: BOTH_TEXT,
    table: "1,2021-09-08T01:47:11Z,,,,,,120,,,\n1,2021-09-08T01:47:14Z,,,0.0,16.0000,1.00,,,,\n2,,,,,,,,,,\n2,,,,,,,,,,\n2,,,,,,,,,,\n",
};

/// The known files, and a chain of the last two.
pub fn files() -> [Known; 8] {
    [
        KNOWN_EMPTY,
        KNOWN_ZEROS,
        KNOWN_SHORT,
        KNOWN_LONG,
        KNOWN_MESSAGE,
        KNOWN_ORDERS,
        KNOWN_DEVELOPER,
        KNOWN_BOTH,
    ]
}
