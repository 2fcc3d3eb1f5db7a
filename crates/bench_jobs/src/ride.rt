//! A rider who moves on second after second, and what the devices write of that.
use crate::random::Random;
use fit_base::Order;

/// The last second, and what came before it. Positions are semicircles in two's complement.
#[derive(Drop)]
pub(crate) struct Ride {
    pub(crate) now: u32,
    pub(crate) begin: u32,
    pub(crate) lap_begin: u32,
    pub(crate) laps: u16,
    latitude: u32,
    longitude: u32,
    altitude: u16,
    distance: u32,
    speed: u16,
    heart_rate: u8,
    cadence: u8,
    power: u16,
    temperature: u8,
    work: u32,
    noise: u64,
}

/// The two bytes of a number.
pub(crate) fn two(order: Order, number: u16) -> [u8; 2] {
    let spelled = match order {
        Order::Little => number,
        Order::Big => number.swap_bytes(),
    };
    spelled.to_le_bytes()
}

/// The four bytes of a number.
pub(crate) fn four(order: Order, number: u32) -> [u8; 4] {
    let spelled = match order {
        Order::Little => number,
        Order::Big => number.swap_bytes(),
    };
    spelled.to_le_bytes()
}

/// A number of some bits of another: those from `place` on that `mask` has.
fn cut(noise: u64, place: u32, mask: u8) -> u8 {
    ((noise >> place.min(56)) & 0xFF) as u8 & mask
}

/// A number that moves by -4 to 3 and stays from `least` to `least + 127`.
fn moved(number: u8, step: u8, least: u8) -> u8 {
    let place = number
        .wrapping_sub(least)
        .wrapping_add(step & 7)
        .wrapping_sub(4);
    if place < 128 {
        place.wrapping_add(least)
    } else {
        least.wrapping_add(64)
    }
}

impl Ride {
    /// The start of a ride.
    pub(crate) fn new(random: &mut Random) -> Ride {
        let begin = random.among(1_000_000_000, 100_000_000);
        Ride {
            now: begin,
            begin,
            lap_begin: begin,
            laps: 0,
            latitude: random.among(500_000_000, 100_000_000),
            longitude: random.among(50_000_000, 100_000_000),
            altitude: 2500 + (random.draw() & 0x1FFF) as u16,
            distance: 0,
            speed: 2500,
            heart_rate: 100,
            cadence: 80,
            power: 180,
            temperature: 2 + (random.draw() & 0x1F) as u8,
            work: 0,
            noise: 0,
        }
    }

    /// Goes on for a second. Now and then a sensor has no value.
    pub(crate) fn go_on(&mut self, random: &mut Random) {
        let noise = random.draw();
        self.noise = noise;
        self.now = self.now.wrapping_add(1);
        self.latitude = self
            .latitude
            .wrapping_add(u32::from(cut(noise, 0, 127)))
            .wrapping_sub(40);
        self.longitude = self
            .longitude
            .wrapping_add(u32::from(cut(noise, 7, 127)))
            .wrapping_sub(50);
        self.altitude = self
            .altitude
            .wrapping_add(u16::from(cut(noise, 14, 3)))
            .wrapping_sub(1);
        self.speed = 2500u16.wrapping_add(u16::from(cut(noise, 16, 255)).wrapping_mul(20));
        self.distance = self.distance.wrapping_add(u32::from(self.speed) / 10);
        self.heart_rate = moved(self.heart_rate, cut(noise, 24, 7), 64);
        self.cadence = moved(self.cadence, cut(noise, 27, 7), 30);
        self.power = 80u16.wrapping_add(u16::from(cut(noise, 30, 255)));
        self.work = self.work.wrapping_add(u32::from(self.power));
    }

    /// The heart rate, or the number that says that there is none.
    fn heard(&self) -> u8 {
        if cut(self.noise, 40, 127) == 0 {
            0xFF
        } else {
            self.heart_rate
        }
    }

    /// The power, or the number that says that there is none.
    fn pushed(&self) -> u16 {
        if cut(self.noise, 40, 63) == 1 {
            0xFFFF
        } else {
            self.power
        }
    }

    /// A record header and a timestamp.
    pub(crate) fn stamped(&self, header: u8, order: Order) -> [u8; 5] {
        let [t0, t1, t2, t3] = four(order, self.now);
        [header, t0, t1, t2, t3]
    }

    /// The items of `POINT_FIELDS`.
    pub(crate) fn point(&self, order: Order) -> [u8; 21] {
        let [y0, y1, y2, y3] = four(order, self.latitude);
        let [x0, x1, x2, x3] = four(order, self.longitude);
        let [a0, a1] = two(order, self.altitude);
        let [d0, d1, d2, d3] = four(order, self.distance);
        let [s0, s1] = two(order, self.speed);
        let [p0, p1] = two(order, self.pushed());
        let [heard, cadence, warm] = [self.heard(), self.cadence, self.temperature];
        [
            y0, y1, y2, y3, x0, x1, x2, x3, a0, a1, heard, cadence, d0, d1, d2, d3, s0, s1, p0, p1,
            warm,
        ]
    }

    /// The items of `WATCH_FIELDS` after those of `POINT_FIELDS`.
    pub(crate) fn watched(&self, order: Order) -> [u8; 13] {
        let [s0, s1, s2, s3] = four(order, u32::from(self.speed));
        let [a0, a1, a2, a3] = four(order, u32::from(self.altitude));
        let half = cut(self.noise, 47, 64);
        let [v0, v1] = two(
            order,
            700u16.wrapping_add(u16::from(cut(self.noise, 38, 255))),
        );
        let [g0, g1] = two(
            order,
            2300u16.wrapping_add(u16::from(cut(self.noise, 46, 255))),
        );
        [s0, s1, s2, s3, a0, a1, a2, a3, half, v0, v1, g0, g1]
    }

    /// The items of `SENSOR_FIELDS`: power, form power, stiffness as a float, and balance.
    pub(crate) fn sensed(&self, order: Order) -> [u8; 9] {
        let [p0, p1] = two(order, self.power);
        let [f0, f1] = two(
            order,
            60u16.wrapping_add(u16::from(cut(self.noise, 52, 31))),
        );
        let stiff = 0x4110_0000u32.wrapping_add(u32::from(cut(self.noise, 50, 255)) << 12);
        let [k0, k1, k2, k3] = four(order, stiff);
        [
            p0,
            p1,
            f0,
            f1,
            k0,
            k1,
            k2,
            k3,
            45u8.wrapping_add(cut(self.noise, 56, 7)),
        ]
    }

    /// What a field of `WIDE_FIELDS` or `SMALL_FIELDS` holds, as the number that its bytes spell. A field of the pedals has no value where
    /// the power has none.
    pub(crate) fn number_of(&self, field: u8) -> u32 {
        match field {
            0 => self.latitude,
            1 => self.longitude,
            2 | 78 => u32::from(self.altitude),
            3 => u32::from(self.heard()),
            4 => u32::from(self.cadence),
            5 => self.distance,
            6 | 73 => u32::from(self.speed),
            7 => u32::from(self.pushed()),
            13 => u32::from(self.temperature),
            29 => self.work,
            39 => 700 + u32::from(cut(self.noise, 38, 255)),
            40 | 41 => 2300 + u32::from(cut(self.noise, 46, 255)),
            42 => 2,
            53 => u32::from(cut(self.noise, 47, 64)),
            _ if self.pushed() == 0xFFFF => 0xFFFF,
            _ => self.pedalled(field),
        }
    }

    /// What a field of the pedals holds: the first of two numbers of seven bits, or both.
    fn pedalled(&self, field: u8) -> u32 {
        let first = cut(self.noise, u32::from(field & 31), 127);
        let second = cut(self.noise, u32::from(field & 3) * 8, 127);
        u32::from(first) | u32::from(second) << 8
    }

    /// The items of `STRAIN_FIELDS`: a strain from 512 to 767, and a stiffness from 9 to 10.
    pub(crate) fn strains(&self) -> [u8; 8] {
        let first = 0x4400_0000u32.wrapping_add(u32::from(cut(self.noise, 20, 255)) << 14);
        let second = 0x4110_0000u32.wrapping_add(u32::from(cut(self.noise, 50, 255)) << 12);
        let [s0, s1, s2, s3] = first.to_le_bytes();
        let [k0, k1, k2, k3] = second.to_le_bytes();
        [s0, s1, s2, s3, k0, k1, k2, k3]
    }

    /// The items of `SHORT_FIELDS`.
    pub(crate) fn short(&self) -> [u8; 18] {
        let [y0, y1, y2, y3] = self.latitude.to_le_bytes();
        let [x0, x1, x2, x3] = self.longitude.to_le_bytes();
        let [a0, a1] = self.altitude.to_le_bytes();
        let [p0, p1] = self.pushed().to_le_bytes();
        let speed = u32::from(self.speed) / 10;
        let both = (self.distance.wrapping_mul(4) / 25) << 12 | (speed & 0xFFF);
        let [c0, c1, c2, _] = both.to_le_bytes();
        let [heard, cadence, warm] = [self.heard(), self.cadence, self.temperature];
        [
            y0, y1, y2, y3, x0, x1, x2, x3, a0, a1, heard, cadence, c0, c1, c2, p0, p1, warm,
        ]
    }

    /// The items of `PLACE_FIELDS`.
    pub(crate) fn place(&self) -> [u8; 16] {
        let [y0, y1, y2, y3] = self.latitude.to_le_bytes();
        let [x0, x1, x2, x3] = self.longitude.to_le_bytes();
        let [a0, a1] = self.altitude.to_le_bytes();
        let [d0, d1, d2, d3] = self.distance.to_le_bytes();
        let [s0, s1] = self.speed.to_le_bytes();
        [
            y0, y1, y2, y3, x0, x1, x2, x3, a0, a1, d0, d1, d2, d3, s0, s1,
        ]
    }

    /// The items of `BODY_FIELDS`.
    pub(crate) fn body(&self) -> [u8; 3] {
        [self.heard(), self.cadence, self.temperature]
    }

    /// The items of `PEDAL_FIELDS`.
    pub(crate) fn pedals(&self) -> [u8; 7] {
        let [p0, p1] = self.pushed().to_le_bytes();
        let [w0, w1, w2, w3] = self.work.to_le_bytes();
        [p0, p1, w0, w1, w2, w3, 0x80 | cut(self.noise, 52, 63)]
    }

    /// The items of `LAP_FIELDS` after the timestamp, and the next lap begins.
    pub(crate) fn lap(&mut self, order: Order) -> [u8; 25] {
        let [b0, b1, b2, b3] = four(order, self.lap_begin);
        let [y0, y1, y2, y3] = four(order, self.latitude);
        let [x0, x1, x2, x3] = four(order, self.longitude);
        let took = self.now.wrapping_sub(self.lap_begin).wrapping_mul(1000);
        let [t0, t1, t2, t3] = four(order, took);
        let [d0, d1, d2, d3] = four(order, self.distance);
        let [s0, s1] = two(order, self.speed);
        self.lap_begin = self.now;
        self.laps = self.laps.wrapping_add(1);
        [
            b0,
            b1,
            b2,
            b3,
            y0,
            y1,
            y2,
            y3,
            x0,
            x1,
            x2,
            x3,
            t0,
            t1,
            t2,
            t3,
            d0,
            d1,
            d2,
            d3,
            s0,
            s1,
            self.heart_rate,
            179,
            0,
        ]
    }

    /// The items of `SESSION_FIELDS` after the timestamp.
    pub(crate) fn session(&self, order: Order) -> [u8; 16] {
        let [b0, b1, b2, b3] = four(order, self.begin);
        let took = self.now.wrapping_sub(self.begin).wrapping_mul(1000);
        let [t0, t1, t2, t3] = four(order, took);
        let [d0, d1, d2, d3] = four(order, self.distance);
        let [l0, l1] = two(order, self.laps);
        [b0, b1, b2, b3, t0, t1, t2, t3, d0, d1, d2, d3, 2, 0, l0, l1]
    }

    /// The items of `COURSE_FIELDS` before the name.
    pub(crate) fn course_point(&self) -> [u8; 15] {
        let [n0, n1] = self.laps.to_le_bytes();
        let [t0, t1, t2, t3] = self.now.to_le_bytes();
        let [y0, y1, y2, y3] = self.latitude.to_le_bytes();
        let [x0, x1, x2, x3] = self.longitude.to_le_bytes();
        [
            n0,
            n1,
            t0,
            t1,
            t2,
            t3,
            y0,
            y1,
            y2,
            y3,
            x0,
            x1,
            x2,
            x3,
            cut(self.noise, 52, 15),
        ]
    }
}
