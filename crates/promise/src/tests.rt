use crate::lift::{Lift, new_lift};
use crate::set_up;
use bench::Bench;
use bench::arming::{Armed, Arming};
use bench::refusal::Refusal;
use bench::ticket::Ticket;
use station::Station;
use std::process::Abort;
use std::test::Fail;

fn held(bench: &Bench<Lift>, place: u8) -> bool {
    bench.facts(place).is_ok_and(|facts| facts.held)
}

// The watchdog of the first card armed with a preload of 2, so that it rises at tick 3.
fn armed(bench: &mut Bench<Lift>) -> Result<Arming<Armed>, Fail> {
    let preloaded = bench
        .preload(Arming::begin(0), 2)
        .map_err(|_| Fail::new("a card takes a preload"))?;
    bench
        .arm(preloaded)
        .map_err(|_| Fail::new("a card can be armed"))
}

#[test]
fn an_armed_card_falls_at_its_tick(rt: HostRuntime) -> Result<(), Fail> {
    let mut bench = set_up(new_lift());
    let _armed = armed(&mut bench)?;
    let _ = bench.run(true, 2);
    assert!(rt; !held(&bench, 0));
    let _ = bench.run(true, 1);
    assert!(rt; held(&bench, 0));
    Ok(())
}

#[test]
fn a_kick_begins_the_count_again(rt: HostRuntime) -> Result<(), Fail> {
    let mut bench = set_up(new_lift());
    let armed = armed(&mut bench)?;
    let _ = bench.run(true, 2);
    assert!(rt; bench.kick(armed).is_ok());
    let _ = bench.run(true, 2);
    assert!(rt; !held(&bench, 0));
    let _ = bench.run(true, 1);
    assert!(rt; held(&bench, 0));
    Ok(())
}

#[test]
fn a_refused_arming_comes_back(rt: HostRuntime) -> Result<(), Fail> {
    let mut bench = set_up(new_lift());
    let Err(back) = bench.preload(Arming::begin(1), 2) else {
        return Err(Fail::new("a drive has no watchdog"));
    };
    assert_eq!(rt; back.why.number(), 2);
    assert_eq!(rt; back.given.place(), 1);
    let Err(back) = bench.preload(Arming::begin(3), 2) else {
        return Err(Fail::new("there is no place 3"));
    };
    assert_eq!(rt; back.why.number(), 1);
    assert_eq!(rt; back.given.place(), 3);
    Ok(())
}

// The number by which a take was refused.
fn refusal(rt: &impl Abort, answer: Result<Ticket, Refusal>) -> u8 {
    match answer {
        Ok(_ticket) => panic!(rt; "taken"),
        Err(why) => why.number(),
    }
}

// Acknowledges a ticket, which nothing stands in the way of.
fn acknowledged(rt: &impl Abort, bench: &mut Bench<Lift>, ticket: Ticket) {
    match bench.acknowledge(ticket) {
        Ok(()) => {}
        Err(_back) => panic!(rt; "what was taken is acknowledged"),
    }
}

// Channels 0 and 2 of the first chip of the first card are converted, and the end of both was waited for.
fn converted(rt: &impl Abort) -> Bench<Lift> {
    let mut bench = set_up(new_lift());
    assert!(rt; bench.write(0, 0x00, 0x000c_0000).is_ok());
    assert!(rt; bench.wire(0, 0x00, 0x2000).is_ok());
    assert!(rt; bench.write(0, 0x02, 0x0540).is_ok());
    assert_eq!(rt; bench.until(true, 1000).ok(), Some(160));
    bench
}

#[test]
fn where_nothing_is_pending_nothing_is_taken(rt: HostRuntime) {
    let mut bench = set_up(new_lift());
    assert_eq!(rt; refusal(&rt, bench.take(0)), 7);
    assert_eq!(rt; refusal(&rt, bench.take(1)), 7);
    assert_eq!(rt; refusal(&rt, bench.take(3)), 1);
    assert_eq!(rt; refusal(&rt, bench.take(255)), 1);
}

#[test]
fn what_is_waited_for_is_taken_once_and_acknowledged(rt: HostRuntime) -> Result<(), Fail> {
    let mut bench = converted(&rt);
    assert_eq!(rt; bench.until(true, 1000).ok(), Some(0));
    let Ok(ticket) = bench.take(0) else {
        return Err(Fail::new("a conversion has ended"));
    };
    assert_eq!(rt; ticket.bits(), 0x0004_0000);
    assert_eq!(rt; refusal(&rt, bench.take(0)), 8);
    acknowledged(&rt, &mut bench, ticket);
    assert_eq!(rt; refusal(&rt, bench.take(0)), 7);
    assert_eq!(rt; bench.read(0, 0x01).ok(), Some(0x0001_0000));
    Ok(())
}

#[test]
fn waiting_has_its_limits(rt: HostRuntime) {
    let mut bench = set_up(new_lift());
    match bench.until(true, 1_000_001) {
        Ok(_made) => panic!(rt; "waited too long"),
        Err(why) => assert_eq!(rt; why.number(), 6),
    }
    assert_eq!(rt; bench.until(true, 0).ok(), Some(0));
    assert_eq!(rt; bench.until(true, 100).ok(), Some(100));
}

#[test]
fn a_fall_of_the_outside_line_is_waited_for(rt: HostRuntime) -> Result<(), Fail> {
    let mut bench = converted(&rt);
    let Ok(ticket) = bench.take(0) else {
        return Err(Fail::new("a conversion has ended"));
    };
    acknowledged(&rt, &mut bench, ticket);
    // The end of a channel still stands, and is enabled here.
    assert!(rt; bench.write(0, 0x00, 0x004f_0000).is_ok());
    assert_eq!(rt; bench.until(false, 100).ok(), Some(0));
    assert!(rt; bench.write(0, 0x00, 0x004e_0000).is_ok());
    assert_eq!(rt; bench.until(false, 100).ok(), Some(1));
    assert_eq!(rt; bench.read(0, 0x03).ok(), Some(0x23));
    let Ok(fallen) = bench.take(0) else {
        return Err(Fail::new("the line has fallen"));
    };
    assert_eq!(rt; fallen.bits(), 0x0040_0000);
    acknowledged(&rt, &mut bench, fallen);
    Ok(())
}
