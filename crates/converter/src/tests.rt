use crate::chip::{Chip, Event};
use crate::queue::extended;

// A chip that has just begun with the channels 0 and 2.
fn begun() -> Chip {
    let mut chip = Chip::new();
    chip.on(Event::Start {
        mask: 5,
        wires: [0x1fff, 1, 0x2000, 3],
    });
    chip
}

fn after(mut chip: Chip, ticks: u8) -> Chip {
    for _ in 0..ticks {
        chip.on(Event::Tick);
    }
    chip
}

#[test]
fn the_sign_of_14_bits_is_extended(rt: HostRuntime) {
    assert_eq!(rt; extended(0x1fff), 0x1fff);
    assert_eq!(rt; extended(0x2000), 0xe000);
}

#[test]
fn the_first_channel_ends_at_tick_80(rt: HostRuntime) {
    let before = after(begun(), 79);
    assert!(rt; !before.ended);
    let first = after(before, 1);
    assert!(rt; first.ended & !first.done);
}

#[test]
fn the_second_channel_ends_at_tick_160(rt: HostRuntime) {
    let before = after(begun(), 159);
    assert!(rt; !before.done);
    assert!(rt; after(before, 1).done);
}

#[test]
fn reads_give_the_channels_in_ascending_order_and_wrap(rt: HostRuntime) {
    let first = after(begun(), 160);
    assert_eq!(rt; first.read(), 0x1fff);
    let second = first.moved_on();
    assert_eq!(rt; second.read(), 0xe000);
    assert_eq!(rt; second.moved_on().read(), 0x1fff);
}

#[test]
fn a_start_of_no_channel_ends_nothing(rt: HostRuntime) {
    let mut chip = begun();
    chip.on(Event::Start {
        mask: 0,
        wires: [0; 4],
    });
    let chip = after(chip, 200);
    assert!(rt; !chip.ended & !chip.done);
}
