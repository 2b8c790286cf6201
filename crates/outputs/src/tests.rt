use crate::channels::Outputs;
use crate::mode::{Mode, modes_allowed};
use bits::number::Code;

#[test]
fn a_mode_says_what_a_code_puts_out(rt: HostRuntime) {
    assert_eq!(rt; Mode::Unipolar.steps(Code::of(819)), 819);
    assert_eq!(rt; Mode::FiveVolts.steps(Code::of(2867)), 819);
    assert_eq!(rt; Mode::TenVolts.steps(Code::of(3072)), 2048);
    assert_eq!(rt; Mode::TenVolts.steps(Code::of(1639)), -818);
}

#[test]
fn a_latched_code_goes_out_with_the_update(rt: HostRuntime) {
    let latched = Outputs::silent().latched(1, 0x0c00_0333);
    assert_eq!(rt; latched.volts(1), 0);
    let out = latched.updated();
    assert_eq!(rt; out.volts(1), 0x333);
    assert_eq!(rt; out.volts(5), 0xc00);
}

#[test]
fn mode_3_is_not_let_in(rt: HostRuntime) {
    assert!(rt; modes_allowed(0xaaaa));
    assert!(rt; !modes_allowed(0xbaaa));
    assert!(rt; !modes_allowed(0x1_0000));
}
