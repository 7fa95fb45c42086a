ghost use Rattle.std.specs.Prelude.{◌≡◌, ℕ, ◌<◌, ◌≤◌, IsTrue, IsFalse, IfSome};
ghost use Rattle.word_base.specs.Lanes.{Turn};
ghost use Rattle.word_base.specs.Settings.{Setting};
ghost use Rattle.dispatch_machine.specs.declared.lane.Next.TheVariants as next;
ghost use Rattle.dispatch_machine.specs.Lane.{Position, is_owed, answered, found, go_from, event_of, asks_word, IsWithin};

use word_base::Event;

/// The strict rule that a lane breaks, and where.
#[derive(Clone, Copy, Debug, PartialEq, Eq)]
pub struct Strict {
    /// The place in the lane's code.
    pub place: u32,
    /// The number of the rule.
    pub rule: u32,
}

/// What a lane comes to.
#[derive(Clone, Copy, Debug, PartialEq, Eq)]
pub enum Next {
    /// Its next event.
    Event(Event),
    /// Its end.
    Ended,
    /// No event and no end within the silent steps that it was allowed.
    Spinning,
    /// A strict rule that it breaks.
    Wrong(Strict),
}

/// A lane of a dispatch: a machine that makes silent steps between its events.
///
/// The calls are this project's own: SPIR-V and Shader Model 5 say what a lane does, and define no
/// schedule. No call takes memory.
pub trait Lane {
    /// The states of its machine.
    ghost State: { Type 0 };

    /// What one step is. It stands for all that is fixed: the code, and what the lane was given.
    ghost step: { Self → State → Turn State };

    /// What the lane was given.
    ghost setting: { Self → Setting };

    /// Where it stands: at a state, or behind a load or an atomic whose word is owed.
    ghost position: { Self → Position State };

    /// The silent steps that the last `next` made.
    ghost counted: { Self → ℕ };

    /// Makes silent steps, at most `fuel`, and gives the event, the end or the broken rule that comes
    /// behind fewer than `fuel` of them, and else `Spinning`. Behind an event that asks for no word the
    /// lane goes on at once; after `Ended` and `Wrong` the same comes again.
    fn next(&mut self, fuel: u32) -> Next
        requires positive { 0 < fuel }
        requires answered { IsFalse (is_owed (position self.old)) }
        ensures found { found result (counted self.new) (position self.new)
            ≡ go_from (step self.old) fuel (position self.old) }
        ensures within { IfSome (event_of result) (IsWithin (setting self.old)) }
        ensures owed { is_owed (position self.new) ≡ asks_word result }
        ensures few { counted self.new ≤ fuel }
        ensures spun { result ≡ next.Spinning → counted self.new ≡ fuel }
        ensures step { step self.new ≡ step self.old }
        ensures setting { setting self.new ≡ setting self.old };

    /// The silent steps that the last `next` made.
    fn steps(&self) -> u32
        ensures { result ≡ counted self.now };

    /// Gives the load or the atomic that `next` came to its word.
    fn answer(&mut self, word: u32)
        requires owed { IsTrue (is_owed (position self.old)) }
        ensures position { position self.new ≡ answered word (position self.old) }
        ensures counted { counted self.new ≡ counted self.old }
        ensures step { step self.new ≡ step self.old }
        ensures setting { setting self.new ≡ setting self.old };
}
