// What a line of a trace asks for.
#[derive(Clone, Copy, PartialEq, Eq, Debug)]
pub enum Command {
    Write { place: u8, register: u8, value: u32 },
    Read { place: u8, register: u8 },
    Wire { place: u8, wire: u8, level: u32 },
    // The outside line is high in all the ticks, or low in all of them.
    Run { high: bool, count: u32 },
    Volts { place: u8, channel: u8 },
}
