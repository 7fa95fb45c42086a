ghost use Rattle.std.specs.Prelude.{◌≡◌, ◌<◌, ◌≤◌, [], IfNone, None, length, nat_eq, true};
ghost use Rattle.tpf_program.specs.Ends.{is_closing, is_opening, part_of};
ghost use Rattle.tpf_program.specs.Nesting.{is_label};
ghost use Rattle.shader_check.specs.Nested.{around_next, else_wrong, ends_wrong, leaps_wrong, marked, opened};
ghost use Rattle.shader_check.specs.Nested.{outermost_of, outer_next, outside, rule_within, sort_of};

use arrayvec::ArrayVec;
use tpf_decode::Meaning;
use word_base::Rule;

/// What a construct is.
#[derive(Clone, Copy, Debug, Default, PartialEq, Eq)]
pub(crate) enum Sort {
    /// None: what stands in it stands outside of all constructs.
    #[default]
    Outside,
    /// An `if`.
    If,
    /// A `loop`.
    Loop,
    /// A `switch`.
    Switch,
}

/// A construct that is not closed yet, with what stands directly in it so far.
#[derive(Clone, Copy, Debug, Default, PartialEq, Eq)]
pub(crate) struct Construct {
    /// What it is.
    pub(crate) sort: Sort,
    /// The number of its opening, None outside of all constructs.
    pub(crate) opening: Option<u32>,
    /// Whether it or one around it is a loop.
    pub(crate) loops: bool,
    /// Whether it or one around it is a loop or a switch.
    pub(crate) leaves: bool,
    /// Whether it has an `else`.
    pub(crate) has_else: bool,
    /// Whether it has a `case` or a `default`.
    pub(crate) has_label: bool,
    /// Whether it has a `default`.
    pub(crate) has_default: bool,
}

/// The constructs around an instruction.
#[derive(Drop)]
pub(crate) struct Nesting {
    /// The innermost.
    pub(crate) around: Construct,
    /// Those around that one, the outermost first; in front of them what is kept outside of all.
    pub(crate) outer: ArrayVec<Construct, 64>,
}

/// The sort of a construct by its opening.
fn opened_sort(meaning: Meaning) -> Sort
    ensures { result ≡ sort_of meaning }
{
    match meaning {
        Meaning::If => Sort::If,
        Meaning::Loop => Sort::Loop,
        Meaning::Switch => Sort::Switch,
        _ => Sort::Outside,
    }
}

/// Whether it opens a construct.
fn opens(meaning: Meaning) -> bool
    ensures { result ≡ is_opening meaning }
{
    matches!(meaning, Meaning::If | Meaning::Loop | Meaning::Switch)
}

/// Whether it closes a construct.
fn closes(meaning: Meaning) -> bool
    ensures { result ≡ is_closing meaning }
{
    matches!(
        meaning,
        Meaning::EndIf | Meaning::EndLoop | Meaning::EndSwitch
    )
}

/// Whether it is a `case` or a `default`.
fn labels(meaning: Meaning) -> bool
    ensures { result ≡ is_label meaning }
{
    matches!(meaning, Meaning::Case | Meaning::Default)
}

impl Construct {
    /// What is kept outside of all constructs.
    const OUTSIDE: Construct = Construct {
        sort: Sort::Outside,
        opening: None,
        loops: false,
        leaves: false,
        has_else: false,
        has_label: false,
        has_default: false,
    };

    /// A construct that the instruction `q` opens in this one.
    fn open(self, meaning: Meaning, q: u32) -> Construct
        ensures { result ≡ opened self meaning q }
    {
        Construct {
            sort: opened_sort(meaning),
            opening: Some(q),
            loops: self.loops || matches!(meaning, Meaning::Loop),
            leaves: self.leaves || matches!(meaning, Meaning::Loop | Meaning::Switch),
            ..Construct::OUTSIDE
        }
    }

    /// This construct behind an instruction that stands directly in it.
    fn mark(self, meaning: Meaning) -> Construct
        ensures { result ≡ marked self meaning }
    {
        Construct {
            has_else: self.has_else || matches!(meaning, Meaning::Else),
            has_label: self.has_label || labels(meaning),
            has_default: self.has_default || matches!(meaning, Meaning::Default),
            ..self
        }
    }

    /// Whether an end does not close it.
    fn is_wrong_end(self, meaning: Meaning) -> bool
        ensures { result ≡ ends_wrong self.sort meaning }
    {
        match meaning {
            Meaning::EndIf => !matches!(self.sort, Sort::If),
            Meaning::EndLoop => !matches!(self.sort, Sort::Loop),
            Meaning::EndSwitch => !matches!(self.sort, Sort::Switch),
            _ => false,
        }
    }

    /// Whether an `else` is out of place in it.
    fn is_wrong_else(self, meaning: Meaning) -> bool
        ensures { result ≡ else_wrong self meaning }
    {
        matches!(meaning, Meaning::Else) && (!matches!(self.sort, Sort::If) || self.has_else)
    }

    /// Whether a `break` or `continue` is out of place in it.
    fn is_wrong_leap(self, meaning: Meaning) -> bool
        ensures { result ≡ leaps_wrong self meaning }
    {
        match meaning {
            Meaning::Break | Meaning::BreakIf => !self.leaves,
            Meaning::Continue | Meaning::ContinueIf => !self.loops,
            _ => false,
        }
    }

    /// The first rule that an instruction breaks in it, where so many constructs stand around, and the
    /// instruction is or is not a case again.
    fn rule(self, depth: usize, again: bool, meaning: Meaning) -> Option<Rule>
        ensures { result ≡ rule_within self depth again meaning }
    {
        let in_switch = matches!(self.sort, Sort::Switch);
        if self.is_wrong_end(meaning) {
            Some(Rule::S1)
        } else if self.is_wrong_else(meaning) {
            Some(Rule::S3)
        } else if self.is_wrong_leap(meaning) {
            Some(Rule::S4)
        } else if labels(meaning) && !in_switch {
            Some(Rule::S5)
        } else if matches!(meaning, Meaning::Default) && self.has_default {
            Some(Rule::S6)
        } else if again {
            Some(Rule::S7)
        } else if in_switch
            && !(labels(meaning) || matches!(meaning, Meaning::EndSwitch))
            && !self.has_label
        {
            Some(Rule::S8)
        } else if opens(meaning) && depth == 64 {
            Some(Rule::M3)
        } else {
            None
        }
    }
}

impl Nesting {
    /// Around the first instruction.
    pub(crate) fn none() -> Nesting
        ensures around { result.around ≡ outside }
        ensures outer { result.outer.items ≡ [] }
    {
        Nesting {
            around: Construct::OUTSIDE,
            outer: ArrayVec::new(),
        }
    }

    /// The first rule that an instruction breaks there, where it is or is not a case again.
    #[tactic(auto, using(crate::proofs::NestedRules::room_left))]
    pub(crate) fn rule(&self, again: bool, meaning: Meaning) -> Option<Rule>
        ensures rule { result ≡ rule_within self.now.around (length self.now.outer.items) again meaning }
        ensures room { IfNone result (is_opening meaning ≡ true → length self.now.outer.items < 64) }
    {
        let outer = self.outer.as_slice();
        self.around.rule(outer.len(), again, meaning)
    }

    /// Goes on behind the instruction `q`.
    pub(crate) fn step(&mut self, meaning: Meaning, q: u32)
        requires { is_opening meaning ≡ true → length self.old.outer.items < 64 }
        ensures around { self.new.around
            ≡ around_next (part_of meaning) self.old.around self.old.outer.items meaning q }
        ensures outer { self.new.outer.items ≡ outer_next (part_of meaning) self.old.around self.old.outer.items }
    {
        if opens(meaning) {
            self.outer.push(self.around);
            self.around = self.around.open(meaning, q);
        } else if closes(meaning) {
            if let Some(construct) = self.outer.pop() {
                self.around = construct;
            }
        } else {
            self.around = self.around.mark(meaning);
        }
    }

    /// The opening of the outermost construct.
    pub(crate) fn outermost(&self) -> Option<u32>
        ensures { result ≡ outermost_of self.now.around self.now.outer.items }
    {
        if self.outer.len() < 2 {
            self.around.opening
        } else {
            self.outer.as_slice()[1].opening
        }
    }
}
