ghost use Rattle.std.specs.Prelude.{◌≡◌, ◌<◌, ◌≤◌, IsFalse, IfSome};
ghost use Rattle.word_base.specs.Lanes.{Turn};
ghost use Rattle.word_base.specs.Settings.{Setting};
ghost use Rattle.dispatch_machine.specs.declared.lane.Next.TheVariants as next;
ghost use Rattle.dispatch_machine.specs.Lane.{Position, is_owed, found, go_from, step_from, event_of, event_in, asks_word, IsWithin};

use crate::lane::{Next, Strict};
use word_base::Event;

/// What one step of a machine gives.
#[derive(Clone, Copy, Debug, PartialEq, Eq)]
pub enum Stepped {
    /// A silent step.
    Silent,
    /// An event.
    Event(Event),
    /// The end.
    Ended,
    /// A strict rule that is broken.
    Wrong(Strict),
}

/// What a machine comes to, and behind how many silent steps.
#[derive(Clone, Copy, Debug, PartialEq, Eq)]
pub struct Driven {
    /// What it comes to.
    pub next: Next,
    /// The silent steps that it made.
    pub steps: u32,
}

/// One step of a lane. With `drive` it makes the `next` of a `Lane`.
pub trait Stepwise {
    /// The states.
    ghost State: { Type 0 };

    /// What one step is.
    ghost step: { Self → State → Turn State };

    /// What the lane was given.
    ghost setting: { Self → Setting };

    /// Where it stands: at a state, or behind a load or an atomic whose word is owed.
    ghost position: { Self → Position State };

    /// Makes one step. An end and a broken rule leave the machine where it stands.
    fn step_once(&mut self) -> Stepped
        requires answered { IsFalse (is_owed (position self.old)) }
        ensures stepped { (result, position self.new) ≡ step_from (step self.old) (position self.old) }
        ensures within { IfSome (event_in result) (IsWithin (setting self.old)) }
        ensures step { step self.new ≡ step self.old }
        ensures setting { setting self.new ≡ setting self.old };
}

/// Makes silent steps, at most `fuel`, and gives what comes behind fewer than `fuel` of them, and else
/// `Spinning`, with their number: the law of `Lane::next`.
pub fn drive<M: Stepwise>(machine: &mut M, fuel: u32) -> Driven
    requires positive { 0 < fuel }
    requires answered { IsFalse (is_owed (M.position machine.old)) }
    ensures found { found result.next result.steps (M.position machine.new)
        ≡ go_from (M.step machine.old) fuel (M.position machine.old) }
    ensures within { IfSome (event_of result.next) (IsWithin (M.setting machine.old)) }
    ensures owed { is_owed (M.position machine.new) ≡ asks_word result.next }
    ensures few { result.steps ≤ fuel }
    ensures spun { result.next ≡ next.Spinning → result.steps ≡ fuel }
    ensures step { M.step machine.new ≡ M.step machine.old }
    ensures setting { M.setting machine.new ≡ M.setting machine.old }
{
    for steps in 0..fuel {
        match machine.step_once() {
            Stepped::Silent => {}
            Stepped::Event(event) => {
                return Driven {
                    next: Next::Event(event),
                    steps,
                };
            }
            Stepped::Ended => {
                return Driven {
                    next: Next::Ended,
                    steps,
                };
            }
            Stepped::Wrong(strict) => {
                return Driven {
                    next: Next::Wrong(strict),
                    steps,
                };
            }
        }
    }
    Driven {
        next: Next::Spinning,
        steps: fuel,
    }
}
