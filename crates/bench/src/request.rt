// A call of the bench with its arguments, any numbers. The methods of `Bench` are these, one each; a ticket
// and an arming stand here by what they hold.
pub enum Request {
    Read { place: u8, register: u8 },
    Write { place: u8, register: u8, value: u32 },
    Wire { place: u8, wire: u8, level: u32 },
    Run { level: bool, count: u32 },
    Until { level: bool, count: u32 },
    Take { place: u8 },
    Acknowledge { place: u8, bits: u32 },
    Volts { place: u8, channel: u8 },
    Preload { place: u8, ticks: u32 },
    Arm { place: u8 },
    Kick { place: u8 },
}
