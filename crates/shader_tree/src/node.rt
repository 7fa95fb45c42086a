use tpf_decode::Kind;
use word_base::{Act, Binary, Classes, Paired, Room, Scope, Ternary, Unary};

/// Words that a lane has beside its scratch words. Each is named by its index.
///
/// (Shader Model 5 assembly: r#, x#, cb# and icb.)
#[derive(Clone, Copy, Debug, PartialEq, Eq)]
pub enum Space {
    /// The temp registers r#, four words each.
    Temps,
    /// The elements of the indexable register x# of that slot, four words each.
    Indexable(u32),
    /// The declared vectors of the constant buffer cb# of that slot, four words each.
    Constant(u32),
    /// The immediate constant buffer.
    ImmediateConstant,
}

/// How two words are compared: by value, or by the signed value in two's complement.
#[derive(Clone, Copy, Debug, PartialEq, Eq)]
pub enum Comparison {
    /// They are equal.
    Equal,
    /// They differ.
    Unequal,
    /// The first is below the second.
    ULess,
    /// The first is below the second by signed value.
    SLess,
    /// The first is not below the second.
    UAtLeast,
    /// The first is not below the second by signed value.
    SAtLeast,
}

/// An expression. `Compare` and `Both` are truths, all others are words.
///
/// `a`, `b`, `c`, `inserted`, `base`, `width`, `offset`, `truth`, `yes`, `no` and the `word` of a `Read`
/// are ids of other expressions.
#[derive(Clone, Copy, Debug, PartialEq, Eq)]
pub enum Expr {
    /// That word.
    Word(u32),
    /// The scratch word with that number.
    Scratch(u32),
    /// A component of a thread id. The flattened one has no components: there it carries no meaning.
    Thread {
        kind: Kind,
        component: u8,
    },
    /// The word of a space at an index.
    Read {
        space: Space,
        word: u32,
    },
    /// The number of words of a room.
    Length(Room),
    /// The operation on one word.
    One {
        op: Unary,
        a: u32,
    },
    /// The operation on two words.
    Two {
        op: Binary,
        a: u32,
        b: u32,
    },
    /// The operation on three words.
    Three {
        op: Ternary,
        a: u32,
        b: u32,
        c: u32,
    },
    /// The word `base` with the lowest `width` bits of `inserted` in it, from the bit `offset` on.
    Insert {
        width: u32,
        offset: u32,
        inserted: u32,
        base: u32,
    },
    /// The first of the two words of an operation.
    First {
        op: Paired,
        a: u32,
        b: u32,
    },
    /// The second of the two words of an operation.
    Second {
        op: Paired,
        a: u32,
        b: u32,
    },
    /// The quotient of a word by the number `by`, which is not 0.
    Quotient {
        a: u32,
        by: u32,
    },
    /// The product of a word and the number `by`, modulo 2^32.
    Product {
        a: u32,
        by: u32,
    },
    /// One of two words, by a truth.
    Pick {
        truth: u32,
        yes: u32,
        no: u32,
    },
    /// Whether two words compare so.
    Compare {
        how: Comparison,
        a: u32,
        b: u32,
    },
    /// Whether two truths both hold.
    Both {
        a: u32,
        b: u32,
    },
}

/// A statement.
///
/// The `value` and `word` of statements but `Case`, `a`, `b`, `truth` and `on` are ids of expressions;
/// `body`, `yes`, `no`, `cases`, `first` and `next` are ids of statements.
#[derive(Clone, Copy, Debug, PartialEq, Eq)]
pub enum Stmt {
    /// A scratch word becomes a word.
    Set {
        scratch: u32,
        value: u32,
    },
    /// The word of a space at an index becomes a word.
    Write {
        space: Space,
        word: u32,
        value: u32,
    },
    /// A scratch word becomes the word of a room.
    Load {
        scratch: u32,
        room: Room,
        word: u32,
    },
    /// A word of a room becomes a word.
    Store {
        room: Room,
        word: u32,
        value: u32,
    },
    /// A scratch word becomes the word of a room, which is changed in the same step. `b` counts for
    /// `CompareExchange` alone.
    Atomic {
        scratch: u32,
        room: Room,
        word: u32,
        kind: Act,
        a: u32,
        b: u32,
    },
    /// A barrier of the lanes of a group where `threads`, and else a fence.
    Sync {
        threads: bool,
        scope: Scope,
        classes: Classes,
    },
    /// A body that is run where a truth holds.
    Guard {
        truth: u32,
        body: u32,
    },
    /// One of two statements, by a truth.
    If {
        truth: u32,
        yes: u32,
        no: u32,
    },
    /// A body that is run again and again.
    Loop {
        body: u32,
    },
    /// A chain of statements that is begun at the first `Case` with the word, else at `Default`, else
    /// not at all.
    Switch {
        on: u32,
        cases: u32,
    },
    /// Where a switch begins for a value, which is a number. The chain goes on with `next`.
    Case {
        value: u32,
        next: u32,
    },
    /// Where a switch begins for all other values. The chain goes on with `next`.
    Default {
        next: u32,
    },
    /// Leaves the innermost loop or switch.
    Break,
    /// Begins the innermost loop anew.
    Continue,
    /// Ends the lane.
    Return,
    /// Two statements, one after the other.
    Then {
        first: u32,
        next: u32,
    },
    /// No statement.
    Nothing,
}

/// A node of a tree.
#[derive(Clone, Copy, Debug, PartialEq, Eq)]
pub enum Node {
    /// An expression.
    Expr(Expr),
    /// A statement.
    Stmt(Stmt),
}
