//! Two files beside those of `files`, which have more kinds of fields, and what they are as text. The CSV texts are those of another
//! program.

use crate::Known;

/// Record messages with two described developer fields. By lines: the header, a definition of field descriptions, the descriptions of
/// (0, 0) and (0, 1), a definition of messages of the big-endian architecture with a timestamp, a compressed_speed_distance and both
/// fields, two such messages, of which the second has an invalid number and a counter that has wrapped, a definition of little-endian
/// messages with both fields in the other order, one such message, and the checksum.
const TWO_FIELDS: [u8; 126] = *b"\x0E \0\0n\0\0\0.FIT\x1B!\
    @\0\0\xCE\0\x05\0\x01\x02\x01\x01\x02\x02\x01\x02\x03\x05\x07\x08\x02\x07\
    \0\0\0\x84left\0W\0\
    \0\0\x01\x88lean\0g\0\
    a\0\x01\0\x14\x02\xFD\x04\x86\x08\x03\x0D\x02\0\x02\0\x01\x04\0\
    \x01;\x9A\xCA\x1Fd\0\x10\x01,?\xC0\0\0\
    \x01;\x9A\xCA d\0\0\xFF\xFF\xC0\0\0\0\
    b\0\0\x14\0\0\x02\x01\x04\0\0\x02\0\
    \x02\0\0\0?-\x01\
    \xBE\x04";

/// Its CSV text.
const TWO_FIELDS_TEXT: &str = "row,a,b,c,d,e,f\n\
     file,14,32,0,sum,,\n\
     def,0,0,little,206,5,\n\
     fdef,0,1,2,,,\n\
     fdef,1,1,2,,,\n\
     fdef,2,1,2,,,\n\
     fdef,3,5,7,,,\n\
     fdef,8,2,7,,,\n\
     data,0,,field_description,,,\n\
     field,developer_data_index,0,,,,\n\
     field,field_definition_number,0,,,,\n\
     field,fit_base_type_id,132,,,,\n\
     field,field_name,left,,,,\n\
     field,units,W,,,,\n\
     data,0,,field_description,,,\n\
     field,developer_data_index,0,,,,\n\
     field,field_definition_number,1,,,,\n\
     field,fit_base_type_id,136,,,,\n\
     field,field_name,lean,,,,\n\
     field,units,g,,,,\n\
     def,1,0,big,20,2,2\n\
     fdef,253,4,134,,,\n\
     fdef,8,3,13,,,\n\
     ddef,0,2,0,,,\n\
     ddef,1,4,0,,,\n\
     data,1,,record,,,\n\
     field,timestamp,1000000031,s,,,\n\
     field,compressed_speed_distance,0x640010,,,,\n\
     dev,left,300,W,,,\n\
     dev,lean,0x3FC00000,g,,,\n\
     data,1,,record,,,\n\
     field,timestamp,1000000032,s,,,\n\
     field,compressed_speed_distance,0x640000,,,,\n\
     dev,left,,W,,,\n\
     dev,lean,0xC0000000,g,,,\n\
     def,2,0,little,20,0,2\n\
     ddef,1,4,0,,,\n\
     ddef,0,2,0,,,\n\
     data,2,,record,,,\n\
     dev,lean,0x3F000000,g,,,\n\
     dev,left,301,W,,,\n\
     end,,,,,,\n";

/// What `show` writes of it.
const TWO_FIELDS_SHOWN: &str = "file 1: header 14, protocol 32, profile 0, data 110, sum\n\
     \x20 define 0 field_description little 5 0\n\
     \x20 0 field_description: developer_data_index=0, field_definition_number=0, fit_base_type_id=132, field_name=left, units=W\n\
     \x20 0 field_description: developer_data_index=0, field_definition_number=1, fit_base_type_id=136, field_name=lean, units=g\n\
     \x20 define 1 record big 2 2\n\
     \x20 1 record 2021-09-08T01:47:11Z: timestamp=1000000031 s, compressed_speed_distance=0x640010, left=300 W, lean=0x3FC00000 g\n\
     \x20 1 record 2021-09-08T01:47:12Z: timestamp=1000000032 s, compressed_speed_distance=0x640000, left=, lean=0xC0000000 g\n\
     \x20 define 2 record little 0 2\n\
     \x20 2 record: lean=0x3F000000 g, left=301 W\n\
     ok\n";

/// The rows of its table after the first line.
const TWO_FIELDS_TABLE: &str = "1,2021-09-08T01:47:11Z,,,,16.0000,1.00,,,,\n\
     1,2021-09-08T01:47:12Z,,,,256.0000,1.00,,,,\n\
     1,,,,,,,,,,\n";

/// The same values in both architectures, little-endian first. By fields: a float32, a float64, two of float32, a uint64 above 2^63, a
/// sint64 below zero, two each of uint32, uint64 and sint16, five texts, and three bytes.
const KINDS: [u8; 292] = *b"\x0E \0\0\x14\x01\0\0.FIT\x8C\xBA\
    @\0\0\xE7\x03\x0E\x01\x04\x88\x02\x08\x89\x03\x08\x88\x04\x08\x8F\x05\x08\x8E\x06\x08\x86\x07\x10\x8F\x08\x04\x83\x09\
    \x04\x07\x0A\x04\x07\x0B\x04\x07\x0C\x08\x07\x0D\x02\x07\x0E\x03\x0D\
    \0\0\0\xC0?\0\0\0\0\0\0\x04\xC0\0\0\x80?\0\0\0\xBF\x01\0\0\0\0\0\0\x80\xFE\xFF\xFF\xFF\xFF\xFF\xFF\xFF\xFE\xFF\xFF\xFF\
    \x07\0\0\0\xFE\xFF\xFF\xFF\xFF\xFF\xFF\xFF\x01\0\0\0\0\0\0\0\0\x80,\x01\xC3\xA4b\0a!b\0a,b\0say \"x\"\0\0\0\0\xFF\x1A\
    A\0\x01\x03\xE7\x0E\x01\x04\x88\x02\x08\x89\x03\x08\x88\x04\x08\x8F\x05\x08\x8E\x06\x08\x86\x07\x10\x8F\x08\x04\x83\x09\
    \x04\x07\x0A\x04\x07\x0B\x04\x07\x0C\x08\x07\x0D\x02\x07\x0E\x03\x0D\
    \x01?\xC0\0\0\xC0\x04\0\0\0\0\0\0?\x80\0\0\xBF\0\0\0\x80\0\0\0\0\0\0\x01\xFF\xFF\xFF\xFF\xFF\xFF\xFF\xFE\xFF\xFF\xFF\xFE\
    \0\0\0\x07\xFF\xFF\xFF\xFF\xFF\xFF\xFF\xFE\0\0\0\0\0\0\0\x01\x80\0\x01,\xC3\xA4b\0a!b\0a,b\0say \"x\"\0\0\0\0\xFF\x1A\
    de";

/// Its CSV text.
const KINDS_TEXT: &str = "row,a,b,c,d,e,f\n\
     file,14,32,0,sum,,\n\
     def,0,0,little,999,14,\n\
     fdef,1,4,136,,,\n\
     fdef,2,8,137,,,\n\
     fdef,3,8,136,,,\n\
     fdef,4,8,143,,,\n\
     fdef,5,8,142,,,\n\
     fdef,6,8,134,,,\n\
     fdef,7,16,143,,,\n\
     fdef,8,4,131,,,\n\
     fdef,9,4,7,,,\n\
     fdef,10,4,7,,,\n\
     fdef,11,4,7,,,\n\
     fdef,12,8,7,,,\n\
     fdef,13,2,7,,,\n\
     fdef,14,3,13,,,\n\
     data,0,,message_999,,,\n\
     field,field_1,0x3FC00000,,,,\n\
     field,field_2,0xC004000000000000,,,,\n\
     field,field_3,0x3F800000|0xBF000000,,,,\n\
     field,field_4,9223372036854775809,,,,\n\
     field,field_5,-2,,,,\n\
     field,field_6,4294967294|7,,,,\n\
     field,field_7,18446744073709551614|1,,,,\n\
     field,field_8,-32768|300,,,,\n\
     field,field_9,\u{E4}b,,,,\n\
     field,field_10,a!b,,,,\n\
     field,field_11,\"a,b\",,,,\n\
     field,field_12,\"say \"\"x\"\"\",,,,\n\
     field,field_13,,,,,\n\
     field,field_14,0x00FF1A,,,,\n\
     def,1,0,big,999,14,\n\
     fdef,1,4,136,,,\n\
     fdef,2,8,137,,,\n\
     fdef,3,8,136,,,\n\
     fdef,4,8,143,,,\n\
     fdef,5,8,142,,,\n\
     fdef,6,8,134,,,\n\
     fdef,7,16,143,,,\n\
     fdef,8,4,131,,,\n\
     fdef,9,4,7,,,\n\
     fdef,10,4,7,,,\n\
     fdef,11,4,7,,,\n\
     fdef,12,8,7,,,\n\
     fdef,13,2,7,,,\n\
     fdef,14,3,13,,,\n\
     data,1,,message_999,,,\n\
     field,field_1,0x3FC00000,,,,\n\
     field,field_2,0xC004000000000000,,,,\n\
     field,field_3,0x3F800000|0xBF000000,,,,\n\
     field,field_4,9223372036854775809,,,,\n\
     field,field_5,-2,,,,\n\
     field,field_6,4294967294|7,,,,\n\
     field,field_7,18446744073709551614|1,,,,\n\
     field,field_8,-32768|300,,,,\n\
     field,field_9,\u{E4}b,,,,\n\
     field,field_10,a!b,,,,\n\
     field,field_11,\"a,b\",,,,\n\
     field,field_12,\"say \"\"x\"\"\",,,,\n\
     field,field_13,,,,,\n\
     field,field_14,0x00FF1A,,,,\n\
     end,,,,,,\n";

/// What `show` writes of it.
const KINDS_SHOWN: &str = "file 1: header 14, protocol 32, profile 0, data 276, sum\n\
     \x20 define 0 message_999 little 14 0\n\
     \x20 0 message_999: field_1=0x3FC00000, field_2=0xC004000000000000, field_3=0x3F800000|0xBF000000, \
     field_4=9223372036854775809, field_5=-2, field_6=4294967294|7, field_7=18446744073709551614|1, \
     field_8=-32768|300, field_9=\u{E4}b, field_10=a!b, field_11=a,b, field_12=say \"x\", field_13=, field_14=0x00FF1A\n\
     \x20 define 1 message_999 big 14 0\n\
     \x20 1 message_999: field_1=0x3FC00000, field_2=0xC004000000000000, field_3=0x3F800000|0xBF000000, \
     field_4=9223372036854775809, field_5=-2, field_6=4294967294|7, field_7=18446744073709551614|1, \
     field_8=-32768|300, field_9=\u{E4}b, field_10=a!b, field_11=a,b, field_12=say \"x\", field_13=, field_14=0x00FF1A\n\
     ok\n";

/// Record messages with two described developer fields.
pub fn two_fields() -> Known {
    Known {
        name: "two fields",
        bytes: &TWO_FIELDS,
        first: 126,
        ends: &[
            (14, 0, 1, 2, 0),
            (35, 0, 2, 8, 0),
            (46, 0, 3, 14, 0),
            (57, 0, 4, 20, 0),
            (76, 0, 5, 25, 0),
            (90, 0, 6, 30, 1),
            (104, 0, 7, 35, 2),
            (117, 0, 8, 38, 2),
            (124, 0, 9, 41, 3),
            (126, 1, 9, 42, 3),
        ],
        checked: "file 1: 110 data bytes, 8 records\nok\n",
        shown: TWO_FIELDS_SHOWN,
        text: TWO_FIELDS_TEXT,
        table: TWO_FIELDS_TABLE,
    }
}

/// Values of many kinds, in both architectures.
pub fn kinds() -> Known {
    Known {
        name: "kinds",
        bytes: &KINDS,
        first: 292,
        ends: &[
            (14, 0, 1, 2, 0),
            (62, 0, 2, 17, 0),
            (152, 0, 3, 32, 0),
            (200, 0, 4, 47, 0),
            (290, 0, 5, 62, 0),
            (292, 1, 5, 63, 0),
        ],
        checked: "file 1: 276 data bytes, 4 records\nok\n",
        shown: KINDS_SHOWN,
        text: KINDS_TEXT,
        table: "",
    }
}
