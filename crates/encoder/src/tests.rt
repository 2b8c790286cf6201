use crate::channel::Encoder;
use crate::turn::Levels;
use bits::number::Count;

// An encoder that counts, at a count, with both wires low.
fn counting(count: u32) -> Encoder {
    let encoder = Encoder::new().with_preset(Count::of(count));
    Encoder {
        enabled: true,
        ..encoder.commanded(false, true, false)
    }
}

// The encoder one tick after its wires have been set.
fn turned(encoder: Encoder, a: bool, b: bool) -> Encoder {
    encoder.with_wires(Levels { a, b }).stepped()
}

#[test]
fn a_first_counts_up_and_b_first_counts_down(rt: HostRuntime) {
    assert_eq!(rt; turned(counting(7), true, false).count.value, 8);
    assert_eq!(rt; turned(counting(7), false, true).count.value, 6);
}

#[test]
fn two_changes_are_an_error_and_count_nothing(rt: HostRuntime) {
    let lost = turned(counting(7), true, true);
    assert!(rt; lost.lost);
    assert_eq!(rt; lost.count.value, 7);
}

#[test]
fn up_from_ffffff_gives_0_and_a_carry(rt: HostRuntime) {
    assert!(rt; !counting(0xff_ffff).wrapped);
    let wrapped = turned(counting(0xff_ffff), true, false);
    assert!(rt; wrapped.wrapped);
    assert_eq!(rt; wrapped.count.value, 0);
}

#[test]
fn an_encoder_that_is_off_samples_and_does_not_count(rt: HostRuntime) {
    let off = turned(Encoder::new(), true, false);
    assert!(rt; off.sample.a);
    assert_eq!(rt; off.count.value, 0);
}
