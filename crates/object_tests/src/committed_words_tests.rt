//! Words from which writes are taken back.
use crate::compare::same;
use committed_words::CommittedWords;
use log_machine::UndoEntry;
use object_layout::Words;
use std::alloc::AllocError;
use std::process::Abort;
use std::test::Fail;

/// Two writes of one field, the newer one last, and one of another between them.
const THREE: [UndoEntry; 3] = [
    UndoEntry {
        object: 0,
        field: 1,
        was: 53,
    },
    UndoEntry {
        object: 0,
        field: 3,
        was: 33,
    },
    UndoEntry {
        object: 0,
        field: 1,
        was: 57,
    },
];

fn take_back_three(rt: &impl Abort, words: &mut CommittedWords<'_>) -> Result<(), AllocError> {
    assert!(rt; words.size() > 5);
    words.take_back(&THREE)
}

/// Compares the words at these addresses.
fn same_words(rt: &impl Abort, found: &mut CommittedWords<'_>, want: &[(u32, u64)]) {
    for (at, word) in want {
        assert!(rt; *at < found.size());
        same(rt, (*at, found.word(*at)), (*at, Ok(*word)));
    }
}

#[test]
fn before_images_are_laid_over_words(rt: HostRuntime) -> Result<(), Fail> {
    let words = [17, 0, 29, 61, 41, 49];
    let mut committed = CommittedWords::of(rt.alloc(), &words);
    let before = [(0, 17), (2, 29), (3, 61), (5, 49)];
    same_words(&rt, &mut committed, &before);
    take_back_three(&rt, &mut committed)?;
    let after = [(0, 17), (2, 29), (3, 53), (4, 41), (5, 33)];
    same_words(&rt, &mut committed, &after);
    assert!(rt; words == [17, 0, 29, 61, 41, 49]);
    Ok(())
}
