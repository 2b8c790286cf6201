// A call at a place, as the rules speak of it. The methods of `Station` are these calls, one each.
pub enum Call {
    Read { register: u8 },
    Write { register: u8, value: u32 },
    Wire { wire: u8, level: u32 },
    Volts { channel: u8 },
    Acknowledge { bits: u32 },
    Preload { ticks: u32 },
    Arm,
    Kick,
}
