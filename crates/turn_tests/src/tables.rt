use crate::beside::{add_beside, look_beside};
use crate::log::Log;
use commit_turn::Turn;
use own_base::SessionNo;
use std::alloc::AllocGlobal;
use std::process::Abort;
use std::sync::Wait;
use std::thread::Threads;

const ONE: SessionNo = SessionNo(1);

const TWO: SessionNo = SessionNo(16);

/// Two threads add so many entries each.
fn two_threads<R: Threads + Wait + Abort + AllocGlobal + Sync>(
    rt: &R,
    one_calls: u32,
    two_calls: u32,
) {
    let made = Turn::new(rt.alloc(), Log::new(rt.alloc()));
    let (turn, mut lead) = made.ok().expect(rt, "memory");
    let one = turn.split(&mut lead, ONE);
    let two = turn.split(&mut lead, TWO);
    let ((one, one_grew), (two, two_grew)) = add_beside(
        rt,
        &turn,
        (one, ONE, one_calls),
        (two, TWO, two_calls),
    );
    assert_eq!(rt; lead.out(), 2);
    turn.join(&mut lead, two);
    turn.join(&mut lead, one);
    assert_eq!(rt; lead.out(), 0);
    let log = turn.close(lead);
    assert!(rt; one_grew && two_grew);
    assert_eq!(rt;
        log.entries.len() as u64,
        u64::from(one_calls) + u64::from(two_calls)
    );
    assert!(rt; log.has_in_order(ONE, one_calls));
    assert!(rt; log.has_in_order(TWO, two_calls));
}

/// One thread looks while the other commits so many entries.
fn look_and_commit<R: Threads + Wait + Abort + AllocGlobal + Sync>(rt: &R, calls: u32) {
    let made = Turn::new(rt.alloc(), Log::new(rt.alloc()));
    let (turn, mut lead) = made.ok().expect(rt, "memory");
    let one = turn.split(&mut lead, ONE);
    let two = turn.split(&mut lead, TWO);
    let ((one, committed), (two, looked)) = look_beside(rt, &turn, (one, ONE), (two, TWO, calls));
    turn.join(&mut lead, one);
    turn.join(&mut lead, two);
    assert_eq!(rt; lead.out(), 0);
    let log = turn.close(lead);
    assert!(rt; committed && looked);
    assert!(rt; log.has_in_order(ONE, 1));
    assert!(rt; log.has_in_order(TWO, calls));
}

#[test]
fn each_entry_of_two_threads_stands_once_and_in_order(rt: HostRuntime) {
    for (one, two) in [(0, 0), (1, 0), (0, 1), (1, 1), (3, 400), (500, 500)] {
        two_threads(&rt, one, two);
    }
}

#[test]
fn a_look_that_takes_long_keeps_nobody_from_committing(rt: HostRuntime) {
    for calls in [1, 100] {
        look_and_commit(&rt, calls);
    }
}
