//! A lane that is driven.
ghost use Rattle.std.specs.Prelude.{◌≡◌, ◌<◌, IsFalse};
ghost use Rattle.dispatch_machine.specs.Lane.{is_owed};
ghost use Rattle.dispatch_machine.specs.Lane as lane;

use dispatch_machine::{Lane, Next, Strict, word_lane};
use word_base::{Event, Room};

/// Whether what `next` gave asks for a word.
fn asks_word(next: Next) -> bool
    ensures { result ≡ lane.asks_word next }
{
    match next {
        Next::Event(Event::Load { .. } | Event::Atomic { .. }) => true,
        _ => false,
    }
}

/// What `next` gives, and `steps` after it. A word that is asked for is 40.
fn call<L: Lane>(it: &mut L, fuel: u32) -> (Next, u32)
    requires positive { 0 < fuel }
    requires answered { IsFalse (is_owed (L.position it.old)) }
    ensures { IsFalse (is_owed (L.position it.new)) }
{
    let next = it.next(fuel);
    let steps = it.steps();
    if asks_word(next) {
        it.answer(40);
    }
    (next, steps)
}

fn store(value: u32) -> Next {
    Next::Event(Event::Store {
        room: Room::Shared(0),
        word: 0,
        value,
    })
}

fn load() -> Next {
    Next::Event(Event::Load {
        room: Room::Shared(0),
        word: 0,
    })
}

fn broken(place: u32) -> Next {
    Next::Wrong(Strict { place, rule: 1 })
}

#[test]
fn next_by_its_fuel(rt: HostRuntime) {
    let mut it = word_lane(&[1, 2, 1000, 1001, 5, 6, 1000]);
    assert_eq!(rt; it.steps(), 0);
    for (got, want) in rows! {
        (call(&mut it, 1), (Next::Spinning, 1));
        (call(&mut it, 1), (Next::Spinning, 1));
        (call(&mut it, 1), (store(3), 0));
        (call(&mut it, 1), (load(), 0));
        (call(&mut it, 2), (Next::Spinning, 2));
        (call(&mut it, 2), (store(51), 0));
        (call(&mut it, 1), (Next::Ended, 0));
        (call(&mut it, 9), (Next::Ended, 0));
    } {
        assert_eq!(rt; got, want);
    }
    let mut it = word_lane(&[1, 2, 1000, 7, 2000]);
    for (got, want) in rows! {
        (call(&mut it, 3), (store(3), 2));
        (call(&mut it, 3), (broken(4), 1));
        (call(&mut it, 3), (broken(4), 0));
    } {
        assert_eq!(rt; got, want);
    }
}
