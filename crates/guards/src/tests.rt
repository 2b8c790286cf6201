use crate::fuse::Fuse;
use crate::port::Port;
use crate::watchdog::{Control, Watchdog};

// All bits of a write that arms.
const ARM: Control = Control {
    enabled: true,
    load: true,
    active: true,
    selected: true,
};

// A watchdog that has been armed with a preload.
fn armed(preload: u32) -> Watchdog {
    let watchdog = Watchdog::new().with_preload(preload);
    watchdog.controlled(ARM)
}

#[test]
fn preload_0_rises_at_tick_1(rt: HostRuntime) {
    let watchdog = armed(0);
    assert!(rt; !watchdog.rose);
    assert!(rt; watchdog.ran().rose);
}

#[test]
fn preload_2_rises_at_tick_3(rt: HostRuntime) {
    let watchdog = armed(2);
    assert_eq!(rt; watchdog.due(), Some(3));
    let second = watchdog.ran().ran();
    assert!(rt; !second.output);
    let third = second.ran();
    assert!(rt; third.output & third.rose);
}

#[test]
fn a_load_puts_the_output_low_and_begins_again(rt: HostRuntime) {
    let high = armed(0).ran();
    assert!(rt; high.output);
    let loaded = high.with_preload(5).controlled(ARM);
    assert!(rt; !loaded.output);
    assert_eq!(rt; loaded.count, 5);
}

#[test]
fn a_blown_fuse_is_not_cleared(rt: HostRuntime) {
    let blown = Fuse::new().with_wire(true).sampled();
    let mended = blown.with_wire(false);
    assert!(rt; mended.cleared(true).blown);
    assert!(rt; !mended.sampled().cleared(true).blown);
}

#[test]
fn the_port_reads_wires_of_inputs_and_latches_of_outputs(rt: HostRuntime) {
    let port = Port::new().with_wires(0x1234).with_latch(0x5678);
    assert_eq!(rt; port.read(), 0x1234);
    assert_eq!(rt; port.with_direction(0xff00).read(), 0x5634);
}
