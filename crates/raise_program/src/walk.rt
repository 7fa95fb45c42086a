ghost use Rattle.std.specs.Prelude.{◌≡◌, ◌+◌, ◌<◌, ◌≤◌, ◌∷◌, Some, length};
ghost use Rattle.shader_tree.specs.Nodes.{AStatement};
ghost use Rattle.shader_tree.specs.Terms.{term_at};
ghost use Rattle.raise_operands.specs.Building.{Grows, IsNode};
ghost use Rattle.raise_program.specs.Walked.{closed, end_of_all, halved, put};
ghost use Rattle.raise_program.specs.Walking.{IsWalk, rest_at, stack};

use arrayvec::ArrayVec;
use raise_operands::{growing_laws, stmt};
use shader_tree::{Stmt, Tree};

/// A construct whose end is passed, and whose opening is not.
#[derive(Clone, Copy, Debug, Default, PartialEq, Eq)]
pub(crate) struct Construct {
    /// The statement of what stands behind its end.
    pub(crate) behind: u32,
    /// The statement of what stands between its else and its end, where the else is passed.
    pub(crate) other: Option<u32>,
}

/// The bodies of a construct.
#[derive(Clone, Copy, Debug, PartialEq, Eq)]
pub(crate) struct Bodies {
    /// The statement of what stands behind its opening.
    pub(crate) body: u32,
    /// The statement of what stands between its else and its end, where it has an else.
    pub(crate) other: Option<u32>,
}

/// What the instructions behind a place are raised to.
#[derive(Drop)]
pub(crate) struct Walk {
    /// The statement of those in front of the end of the innermost construct around the place, or of all.
    pub(crate) here: u32,
    /// The constructs around the place, the outermost first.
    pub(crate) around: ArrayVec<Construct, 64>,
}

impl Walk {
    /// Behind the last instruction.
    pub(crate) fn behind_all(tree: &mut Tree) -> Walk
        requires { length tree.old.nodes + 1 ≤ tree.old.capacity }
        ensures grows { Grows tree.old tree.new 1 }
        ensures walk { IsWalk tree.new.nodes result end_of_all }
    {
        Walk {
            here: stmt(tree, Stmt::Nothing),
            around: ArrayVec::new(),
        }
    }

    /// Puts a statement in front.
    pub(crate) fn put(&mut self, tree: &mut Tree, statement: u32)
        requires walk { IsWalk tree.old.nodes self.old (rest_at tree.old.nodes self.old) }
        requires statement { IsNode tree.old.nodes AStatement statement (term_at tree.old.nodes statement) }
        requires room { length tree.old.nodes + 1 ≤ tree.old.capacity }
        ensures grows { Grows tree.old tree.new 1 }
        ensures walk { IsWalk tree.new.nodes self.new (put (term_at tree.old.nodes statement)
            (rest_at tree.old.nodes self.old)) }
    {
        growing_laws();
        self.here = stmt(
            tree,
            Stmt::Then {
                first: statement,
                next: self.here,
            },
        );
    }

    /// Adds the innermost construct.
    fn enter(&mut self, construct: Construct)
        requires { length (stack self.old) < 64 }
        ensures around { stack self.new ≡ construct ∷ stack self.old }
        ensures here { self.new.here ≡ self.old.here }
    {
        self.around.push(construct);
    }

    /// Takes out the innermost construct.
    fn innermost(&mut self) -> Construct
        requires { 0 < length (stack self.old) }
        ensures around { stack self.old ≡ result ∷ stack self.new }
        ensures here { self.new.here ≡ self.old.here }
    {
        match self.around.pop() {
            Some(construct) => construct,
            None => unreachable!(),
        }
    }

    /// Goes on in front of the end of a construct.
    pub(crate) fn close(&mut self, tree: &mut Tree)
        requires walk { IsWalk tree.old.nodes self.old (rest_at tree.old.nodes self.old) }
        requires few { length (stack self.old) < 64 }
        requires room { length tree.old.nodes + 1 ≤ tree.old.capacity }
        ensures grows { Grows tree.old tree.new 1 }
        ensures walk { IsWalk tree.new.nodes self.new (closed (rest_at tree.old.nodes self.old)) }
    {
        growing_laws();
        self.enter(Construct {
            behind: self.here,
            other: None,
        });
        self.here = stmt(tree, Stmt::Nothing);
    }

    /// Goes on in front of an else of the innermost construct.
    pub(crate) fn halve(&mut self, tree: &mut Tree)
        requires walk { IsWalk tree.old.nodes self.old (rest_at tree.old.nodes self.old) }
        requires inside { 0 < length (stack self.old) }
        requires few { length (stack self.old) ≤ 64 }
        requires room { length tree.old.nodes + 1 ≤ tree.old.capacity }
        ensures grows { Grows tree.old tree.new 1 }
        ensures walk { IsWalk tree.new.nodes self.new (halved (rest_at tree.old.nodes self.old)) }
    {
        growing_laws();
        let construct = self.innermost();
        self.enter(Construct {
            behind: construct.behind,
            other: Some(self.here),
        });
        self.here = stmt(tree, Stmt::Nothing);
    }

    /// Leaves the innermost construct: goes on in front of what stands behind it, and gives its bodies.
    pub(crate) fn leave(&mut self) -> Bodies
        requires { 0 < length (stack self.old) }
        ensures body { result.body ≡ self.old.here }
        ensures around { stack self.old
            ≡ record { behind = self.new.here; other = result.other } ∷ stack self.new }
    {
        let construct = self.innermost();
        let body = self.here;
        self.here = construct.behind;
        Bodies {
            body,
            other: construct.other,
        }
    }
}
