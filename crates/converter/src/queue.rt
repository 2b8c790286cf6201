ghost use Rattle.std.specs.Prelude.{◌≡◌, ◌%◌, ◌≤◌};
ghost use Rattle.converter.specs.Queues.{selected, number, with_first, queue, extended};

// Whether a mask of four bits selects a channel.
fn selected(mask: u8, channel: u8) -> bool
    ensures { result ≡ selected mask (channel % 4) }
{
    mask >> (channel % 4) & 1 == 1
}

// How many channels a mask of four bits selects.
pub fn number(mask: u8) -> u8
    ensures value { result ≡ number mask }
    ensures bound { result ≤ 4 }
{
    (mask % 16).count_ones() as u8
}

// A sample put before the others, if it is wanted.
fn with_first(queue: [u16; 4], sample: u16, wanted: bool) -> [u16; 4]
    ensures { result ≡ with_first queue sample wanted }
{
    if wanted {
        [sample, queue[0], queue[1], queue[2]]
    } else {
        queue
    }
}

// The samples of the selected channels, in ascending order from place 0 on. Written out: as a fold over
// `enumerate().rev()` the proof did not close, and a loop is three times as long and asks for an invariant.
pub fn queue(mask: u8, wires: [u16; 4]) -> [u16; 4]
    ensures { result ≡ queue mask wires }
{
    let last = with_first([0; 4], wires[3], selected(mask, 3));
    let two = with_first(last, wires[2], selected(mask, 2));
    let three = with_first(two, wires[1], selected(mask, 1));
    with_first(three, wires[0], selected(mask, 0))
}

// The lowest 14 bits as a signed number of 16. By a test: two shifts of a signed number are shorter and less plain.
pub fn extended(code: u16) -> u16
    ensures { result ≡ extended code }
{
    let value = code % 0x4000;
    if value < 0x2000 {
        value
    } else {
        value + 0xc000
    }
}
