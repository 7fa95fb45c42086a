//! The table of words that a block keeps in ids.
use kept_values::{Kept, Word};
use std::test::Fail;

const SCRATCH: Word = Word::Scratch(2);

const REGISTER: Word = Word::Register(0);

const ELEMENT: Word = Word::Element(1);

/// What is done with a table.
#[derive(Clone, Copy, Debug)]
enum Step {
    Put(Word, u32),
    Keep(Word, u32),
    Settle,
    DropElements,
    Clear,
}

/// What a table says: how many words wait, how many of them of arrays, the last that waits with its id,
/// and the ids of the three words above.
type Said = (
    usize,
    u32,
    Option<(Word, u32)>,
    (Option<u32>, Option<u32>, Option<u32>),
);

const STEPS: &[(&[Step], Said)] = &rows! {
    (&[], (0, 0, None, (None, None, None)));
    (&[Step::Put(SCRATCH, 7), Step::Keep(REGISTER, 8)], (1, 0, Some((SCRATCH, 7)), (Some(7), Some(8), None)));
    (&[Step::Put(ELEMENT, 9), Step::Put(REGISTER, 10), Step::Put(SCRATCH, 11)], (3, 1, Some((ELEMENT, 9)), (Some(11), Some(10), Some(9))));
    (&[Step::Settle], (2, 0, Some((REGISTER, 10)), (Some(11), Some(10), Some(9))));
    (&[Step::DropElements], (2, 0, Some((REGISTER, 10)), (Some(11), Some(10), None)));
    (&[Step::Settle], (1, 0, Some((SCRATCH, 11)), (Some(11), Some(10), None)));
    (&[Step::Clear], (0, 0, None, (None, None, None)));
    (&[Step::Put(REGISTER, 12)], (1, 0, Some((REGISTER, 12)), (None, Some(12), None)));
};

fn take(table: &mut Kept, step: Step) {
    match step {
        Step::Put(word, id) if table.holds(word) => table.put(word, id),
        Step::Keep(word, id) if table.holds(word) => table.keep(word, id),
        Step::Settle => table.settle(),
        Step::DropElements if table.waiting_elements() == 0 => table.drop_elements(),
        Step::Clear => table.clear(),
        _ => {}
    }
}

fn said(table: &Kept) -> Said {
    let ids = (
        table.find(SCRATCH),
        table.find(REGISTER),
        table.find(ELEMENT),
    );
    (table.waiting(), table.waiting_elements(), table.last(), ids)
}

#[test]
fn words_wait_and_are_forgotten(rt: HostRuntime) -> Result<(), Fail> {
    let mut table = Kept::make(rt.alloc(), 3, 1, 2)?;
    for (word, expected) in rows! {
        (Word::Scratch(2), true);
        (Word::Scratch(3), false);
        (Word::Register(1), false);
        (Word::Element(1), true);
        (Word::Element(2), false);
    } {
        assert_eq!(rt; table.holds(word), expected);
    }
    for (steps, expected) in STEPS {
        for step in *steps {
            take(&mut table, *step);
        }
        assert_eq!(rt; said(&table), *expected, "{steps:?}");
    }
    Ok(())
}

#[test]
fn a_table_may_keep_no_word(rt: HostRuntime) -> Result<(), Fail> {
    let table = Kept::make(rt.alloc(), 0, 0, 0)?;
    assert!(rt; !table.holds(Word::Scratch(0)));
    assert_eq!(rt; said(&table), (0, 0, None, (None, None, None)));
    Ok(())
}
