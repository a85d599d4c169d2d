//! Which values belong to which, as one ordered sequence.

use ordered_pairs::Pairs;
use own_base::{Key, MakeCopy, Text};
use std::process::Abort;

/// A step: a pair that is set or taken away, by the numbers of its sides.
struct Move {
    set: bool,
    left: i64,
    right: i64,
}

const MOVES: [Move; 7] = [
    Move {
        set: true,
        left: 2,
        right: 5,
    },
    Move {
        set: true,
        left: 1,
        right: 9,
    },
    Move {
        set: true,
        left: 2,
        right: -5,
    },
    Move {
        set: true,
        left: 2,
        right: 5,
    },
    Move {
        set: false,
        left: 1,
        right: 8,
    },
    Move {
        set: true,
        left: 3,
        right: 0,
    },
    Move {
        set: false,
        left: 3,
        right: 0,
    },
];

/// Whether the right sides under a left side are these, from each place on.
fn are_rights(pairs: &Pairs<Key, Key>, left: &Key, rights: &[i64]) -> bool {
    if pairs.count(left) != rights.len() || !pairs.run_from(left, rights.len()).is_empty() {
        return false;
    }
    for (place, want) in rights.iter().enumerate() {
        match pairs.run_from(left, place).first() {
            Some((_, right)) if right.compare(&Key::Int(*want)).is_eq() => {}
            _ => return false,
        }
    }
    true
}

/// The pairs after the moves, each made in place and as a sequence of its own, which are alike.
fn moved(rt: &(impl Abort + AllocGlobal)) -> Pairs<Key, Key> {
    let mut pairs = Pairs::new();
    for step in &MOVES {
        let pair = (Key::Int(step.left), Key::Int(step.right));
        let other = if step.set {
            pairs.with(rt.alloc(), &pair).expect(rt, "memory")
        } else {
            pairs.without(rt.alloc(), &pair).expect(rt, "memory")
        };
        if step.set {
            pairs.set(rt.alloc(), &pair).expect(rt, "memory");
        } else {
            pairs.take_away(rt.alloc(), &pair).expect(rt, "memory");
        }
        assert_eq!(rt; other.len(), pairs.len());
        assert_eq!(rt; other.has(&pair), step.set);
        assert_eq!(rt; pairs.has(&pair), step.set);
    }
    pairs
}

#[test]
fn right_sides_rise_under_their_left_side(rt: HostRuntime) {
    let pairs = moved(&rt);
    assert_eq!(rt; pairs.len(), 3);
    assert!(rt; are_rights(&pairs, &Key::Int(1), &[9]));
    assert!(rt; are_rights(&pairs, &Key::Int(2), &[-5, 5]));
    assert!(rt; are_rights(&pairs, &Key::Int(3), &[]));
    let copy = pairs.copy(rt.alloc()).expect(&rt, "memory");
    drop(pairs);
    assert!(rt; are_rights(&copy, &Key::Int(2), &[-5, 5]));
}

/// A hundred pairs under one left side, of which each third is taken away again: more than a page holds.
#[test]
fn many_right_sides_lie_in_several_pages(rt: HostRuntime) {
    let mut pairs: Pairs<Key, Key> = Pairs::new();
    let left = Key::Int(7);
    for number in 0..100u8 {
        let pair = (Key::Int(7), Key::Int(i64::from(number) * 37 % 101));
        pairs.set(rt.alloc(), &pair).expect(&rt, "memory");
    }
    assert_eq!(rt; pairs.count(&left), 100);
    for third in 0..33u8 {
        let pair = (Key::Int(7), Key::Int(i64::from(third) * 3));
        pairs.take_away(rt.alloc(), &pair).expect(&rt, "memory");
    }
    // The numbers up to 100 but 64 were set, and 33 multiples of three are taken away.
    assert_eq!(rt; pairs.count(&left), 67);
    assert!(rt; pairs.has(&(Key::Int(7), Key::Int(1))));
    assert!(rt; !pairs.has(&(Key::Int(7), Key::Int(3))));
    assert!(rt; pairs.run_from(&left, 67).is_empty());
    assert_eq!(rt; pairs.count(&Key::Int(8)), 0);
}

#[test]
fn texts_stand_behind_numbers(rt: HostRuntime) {
    let mut pairs: Pairs<Key, Key> = Pairs::new();
    let text = Text::from_str(rt.alloc(), "a").expect(&rt, "memory");
    let name = Key::Text(text.copy(rt.alloc()).expect(&rt, "memory"));
    pairs
        .set(rt.alloc(), &(Key::Int(1), Key::Text(text)))
        .expect(&rt, "memory");
    pairs
        .set(rt.alloc(), &(Key::Int(1), Key::Int(4)))
        .expect(&rt, "memory");
    assert_eq!(rt; pairs.count(&Key::Int(1)), 2);
    match pairs.run_from(&Key::Int(1), 1).first() {
        Some((_, right)) => assert!(rt; right.compare(&name).is_eq()),
        None => panic!(rt; "no second pair"),
    }
    drop(name);
}
