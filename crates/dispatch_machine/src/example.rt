//! A small lane: it shows that the law of lanes can be met, and the tests run it.
ghost use Rattle.std.specs.Prelude.{◌≡◌, ◌<◌, ◌≤◌, ◌^◌, length};
ghost use Rattle.dispatch_machine.specs.Lane.{At};
ghost use Rattle.dispatch_machine.specs.LaneExample as example;
ghost use Rattle.dispatch_machine.specs.LaneExample.{State, state, position_by};

use crate::driver::{Stepped, Stepwise, drive};
use crate::lane::{Lane, Next, Strict};
use word_base::{Event, Room};

/// A lane whose code is a list of words.
///
/// A word below 1000 is added to a sum, 1000 stores the sum in the first word of `g#0`, 1001 loads that
/// word as the sum, and any other word breaks rule 1. It ends behind its last word.
#[derive(Drop)]
pub struct WordLane<'a> {
    code: &'a [u32],
    place: u32,
    sum: u32,
    owed: bool,
    counted: u32,
    ghost short: { length code.now < 2 ^ 32 },
    ghost within: { place ≤ length code.now },
}

/// The lane of that code, at its front.
pub fn word_lane<'a>(code: &'a [u32]) -> WordLane<'a>
    requires { length code.now < 2 ^ 32 }
    ensures step { ⟦<WordLane<'a> as Lane>⟧.step result ≡ example.step code.now }
    ensures position { ⟦<WordLane<'a> as Lane>⟧.position result ≡ At (state 0 0) }
    ensures counted { ⟦<WordLane<'a> as Lane>⟧.counted result ≡ 0 }
{
    WordLane {
        code,
        place: 0,
        sum: 0,
        owed: false,
        counted: 0,
    }
}

impl Stepwise for WordLane<'_> {
    ghost State = { State };

    ghost step = { λ m. example.step m.code.now };

    ghost setting = { λ m. example.setting };

    ghost position = { λ m. position_by m.owed m.place m.sum };

    fn step_once(&mut self) -> Stepped {
        let Some(&word) = self.code.get(self.place as usize) else {
            return Stepped::Ended;
        };
        let room = Room::Shared(0);
        if word < 1000 {
            self.place += 1;
            self.sum = self.sum.wrapping_add(word);
            Stepped::Silent
        } else if word == 1000 {
            self.place += 1;
            Stepped::Event(Event::Store {
                room,
                word: 0,
                value: self.sum,
            })
        } else if word == 1001 {
            self.place += 1;
            self.owed = true;
            Stepped::Event(Event::Load { room, word: 0 })
        } else {
            Stepped::Wrong(Strict {
                place: self.place,
                rule: 1,
            })
        }
    }
}

impl Lane for WordLane<'_> {
    ghost State = { State };

    ghost step = { λ m. example.step m.code.now };

    ghost setting = { λ m. example.setting };

    ghost position = { λ m. position_by m.owed m.place m.sum };

    ghost counted = { λ m. m.counted };

    fn next(&mut self, fuel: u32) -> Next {
        let driven = drive(self, fuel);
        self.counted = driven.steps;
        driven.next
    }

    fn steps(&self) -> u32 {
        self.counted
    }

    fn answer(&mut self, word: u32) {
        self.sum = word;
        self.owed = false;
    }
}
