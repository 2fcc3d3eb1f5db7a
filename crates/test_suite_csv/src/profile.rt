//! The whole table of the profile: message, field, name, unit, scale and offset.
use crate::asserts::equal;
use fit_profile::{Info, field_info, message_name};

const ROWS: &str = "\
0,0,type,,1,0
0,1,manufacturer,,1,0
0,2,product,,1,0
0,3,serial_number,,1,0
0,4,time_created,s,1,0
0,5,number,,1,0
0,8,product_name,,1,0
12,0,sport,,1,0
12,1,sub_sport,,1,0
12,3,name,,1,0
18,0,event,,1,0
18,1,event_type,,1,0
18,2,start_time,s,1,0
18,3,start_position_lat,semicircles,1,0
18,4,start_position_long,semicircles,1,0
18,5,sport,,1,0
18,6,sub_sport,,1,0
18,7,total_elapsed_time,s,1000,0
18,8,total_timer_time,s,1000,0
18,9,total_distance,m,100,0
18,10,total_cycles,cycles,1,0
18,11,total_calories,kcal,1,0
18,14,avg_speed,m/s,1000,0
18,15,max_speed,m/s,1000,0
18,16,avg_heart_rate,bpm,1,0
18,17,max_heart_rate,bpm,1,0
18,18,avg_cadence,rpm,1,0
18,19,max_cadence,rpm,1,0
18,20,avg_power,watts,1,0
18,21,max_power,watts,1,0
18,22,total_ascent,m,1,0
18,23,total_descent,m,1,0
18,25,first_lap_index,,1,0
18,26,num_laps,,1,0
18,28,trigger,,1,0
19,0,event,,1,0
19,1,event_type,,1,0
19,2,start_time,s,1,0
19,3,start_position_lat,semicircles,1,0
19,4,start_position_long,semicircles,1,0
19,5,end_position_lat,semicircles,1,0
19,6,end_position_long,semicircles,1,0
19,7,total_elapsed_time,s,1000,0
19,8,total_timer_time,s,1000,0
19,9,total_distance,m,100,0
19,10,total_cycles,cycles,1,0
19,11,total_calories,kcal,1,0
19,13,avg_speed,m/s,1000,0
19,14,max_speed,m/s,1000,0
19,15,avg_heart_rate,bpm,1,0
19,16,max_heart_rate,bpm,1,0
19,17,avg_cadence,rpm,1,0
19,18,max_cadence,rpm,1,0
19,19,avg_power,watts,1,0
19,20,max_power,watts,1,0
19,21,total_ascent,m,1,0
19,22,total_descent,m,1,0
19,23,intensity,,1,0
19,24,lap_trigger,,1,0
19,25,sport,,1,0
20,0,position_lat,semicircles,1,0
20,1,position_long,semicircles,1,0
20,2,altitude,m,5,500
20,3,heart_rate,bpm,1,0
20,4,cadence,rpm,1,0
20,5,distance,m,100,0
20,6,speed,m/s,1000,0
20,7,power,watts,1,0
20,8,compressed_speed_distance,,1,0
20,9,grade,%,100,0
20,11,time_from_course,s,1000,0
20,13,temperature,C,1,0
20,18,cycles,cycles,1,0
20,19,total_cycles,cycles,1,0
20,28,compressed_accumulated_power,watts,1,0
20,29,accumulated_power,watts,1,0
20,32,vertical_speed,m/s,1000,0
20,33,calories,kcal,1,0
20,39,vertical_oscillation,mm,10,0
20,41,stance_time,ms,10,0
20,73,enhanced_speed,m/s,1000,0
20,78,enhanced_altitude,m,5,500
21,0,event,,1,0
21,1,event_type,,1,0
21,2,data16,,1,0
21,3,data,,1,0
21,4,event_group,,1,0
23,0,device_index,,1,0
23,1,device_type,,1,0
23,2,manufacturer,,1,0
23,3,serial_number,,1,0
23,4,product,,1,0
23,5,software_version,,100,0
23,6,hardware_version,,1,0
23,7,cum_operating_time,s,1,0
23,10,battery_voltage,V,256,0
23,11,battery_status,,1,0
34,0,total_timer_time,s,1000,0
34,1,num_sessions,,1,0
34,2,type,,1,0
34,3,event,,1,0
34,4,event_type,,1,0
34,5,local_timestamp,s,1,0
49,0,software_version,,1,0
49,1,hardware_version,,1,0
78,0,time,s,1000,0
206,0,developer_data_index,,1,0
206,1,field_definition_number,,1,0
206,2,fit_base_type_id,,1,0
206,3,field_name,,1,0
206,8,units,,1,0
207,1,application_id,,1,0
207,3,developer_data_index,,1,0
207,4,application_version,,1,0";

/// The message, the field and what the profile says of it.
fn row_of(line: &'static str) -> Option<(u16, u8, Info)> {
    let mut cells = line.split(',');
    let global = cells.next()?.parse().ok()?;
    let number = cells.next()?.parse().ok()?;
    let info = Info {
        name: cells.next()?,
        unit: cells.next()?,
        scale: cells.next()?.parse().ok()?,
        offset: cells.next()?.parse().ok()?,
    };
    Some((global, number, info))
}

#[test]
fn each_row_is_read(rt: HostRuntime) {
    for line in ROWS.lines() {
        match row_of(line) {
            Some((global, number, info)) => {
                equal(&rt, &field_info(global, number), &Some(info));
            }
            None => assert!(rt; false),
        }
    }
}

#[test]
fn nothing_else_is_listed(rt: HostRuntime) {
    let mut listed = 0usize;
    for global in 0..=0xFFFFu16 {
        for number in 0..253u8 {
            if field_info(global, number).is_some() {
                listed = listed.wrapping_add(1);
            }
        }
        assert!(rt; field_info(global, 255).is_none());
    }
    equal(&rt, &listed, &ROWS.lines().count());
}

/// The messages that have names.
const MESSAGES: [(u16, &str); 12] = [
    (0, "file_id"),
    (12, "sport"),
    (18, "session"),
    (19, "lap"),
    (20, "record"),
    (21, "event"),
    (23, "device_info"),
    (34, "activity"),
    (49, "file_creator"),
    (78, "hrv"),
    (206, "field_description"),
    (207, "developer_data_id"),
];

#[test]
fn messages_with_names(rt: HostRuntime) {
    let mut named = 0usize;
    for global in 0..=0xFFFFu16 {
        if message_name(global).is_some() {
            named = named.wrapping_add(1);
        }
    }
    equal(&rt, &named, &MESSAGES.len());
    for (global, name) in MESSAGES {
        equal(&rt, &message_name(global), &Some(name));
    }
}
