//! Collections beside transactions: what scripts print when the spaces change their roles.
use crate::playing::{expect_done, play};
use disk_model::Pick;
use std::alloc::{AllocError, Global};
use std::process::Abort;
use std::test::Fail;

/// How many pages a space has, a script that needs no stop, and what is printed of it.
type Row = (&'static str, &'static str, &'static str);

const ROWS: [Row; 11] = [
    // What nothing stable refers to is not promoted, and no flip copies it.
    (
        "1",
        "1 begin\n1 new 1 510\n1 new 2 510\n1 new 3 510\n1 new 4 510\n1 new 5 510\n1 new 6 510\n1 new 7 510\n1 new 8 510\n1 new 9 510\n1 commit\nflip\n",
        "1 begin -> begun 1\n1 new 1 510 -> done\n1 new 2 510 -> done\n1 new 3 510 -> done\n1 new 4 510 -> done\n1 new 5 510 -> done\n1 new 6 510 -> done\n1 new 7 510 -> done\n1 new 8 510 -> done\n1 new 9 510 -> volatilefull 4096\n1 seal -> sealed 1\nforce -> durable 1\nflip -> flipped 1 6\nforce -> durable 1\ngraph 1\n0: - - - -\n",
    ),
    // What a collection may still copy is kept free: a seal that was refused has room when the garbage is gone.
    (
        "1",
        "1 begin\n1 root 0\n1 new 1 50\n1 link 0 0 1\n1 commit\n1 begin\n1 root 0\n1 clear 0 0\n1 commit\nflip\n1 begin\n1 root 0\n1 new 1 56\n1 link 0 0 1\n1 seal\nscan\nscan\n1 seal\nforce\n",
        "1 begin -> begun 1\n1 root 0 -> done\n1 new 1 50 -> done\n1 link 0 0 1 -> done\n1 seal -> sealed 1\nforce -> durable 1\n1 begin -> begun 2\n1 root 0 -> done\n1 clear 0 0 -> done\n1 seal -> sealed 2\nforce -> durable 2\nflip -> flipped 1 6\n1 begin -> begun 3\n1 root 0 -> done\n1 new 1 56 -> done\n1 link 0 0 1 -> done\n1 seal -> exhausted 58 58 52\nscan -> collected 6\nscan -> idle\n1 seal -> sealed 3\nforce -> durable 3\ngraph 2\n0: @1 - - -\n1: - - - - - - - - - - - - - - - - - - - - - - - - - - - - - - - - - - - - - - - - - - - - - - - - - - - - - - - -\n",
    ),
    // What a write has replaced is kept, though nothing else leads to it, and an abort after the end puts it back.
    (
        "1",
        "1 begin\n1 root 0\n1 new 1 1\n1 put 1 0 9\n1 link 0 0 1\n1 commit\n1 begin\n1 root 0\n1 clear 0 0\nflip\nscan\nscan\n1 abort\n",
        "1 begin -> begun 1\n1 root 0 -> done\n1 new 1 1 -> done\n1 put 1 0 9 -> done\n1 link 0 0 1 -> done\n1 seal -> sealed 1\nforce -> durable 1\n1 begin -> begun 2\n1 root 0 -> done\n1 clear 0 0 -> done\nflip -> flipped 2 9\nscan -> scanned 1 0 0\nscan -> collected 9\n1 abort -> aborted\nforce -> durable 1\ngraph 2\n0: @1 - - -\n1: 9\n",
    ),
    // A handle is updated to the copy of its object, and a read after the flip finds the copy.
    (
        "1",
        "1 begin\n1 root 0\n1 new 1 1\n1 put 1 0 9\n1 link 0 0 1\n1 commit\n1 begin\n1 root 0\n1 get 0 0 1\nflip\n1 get 0 0 2\n1 same 1 2\n1 same 0 1\nscan\n",
        "1 begin -> begun 1\n1 root 0 -> done\n1 new 1 1 -> done\n1 put 1 0 9 -> done\n1 link 0 0 1 -> done\n1 seal -> sealed 1\nforce -> durable 1\n1 begin -> begun 2\n1 root 0 -> done\n1 get 0 0 1 -> ref\nflip -> flipped 2 9\n1 get 0 0 2 -> ref\n1 same 1 2 -> yes\n1 same 0 1 -> no\nscan -> collected 9\n1 abort -> aborted\nforce -> durable 1\ngraph 2\n0: @1 - - -\n1: 9\n",
    ),
    // A second flip is not made while a collection runs, and a flush of a page has the records of the collection forced before it.
    (
        "1",
        "flip\nflip\nscan\nscan\nscan\nflush 1\nflush 1\nflush 0\n",
        "flip -> flipped 1 6\nflip -> collecting\nscan -> scanned 1 0 0\nscan -> collected 6\nscan -> idle\nflush 1 -> flushed 1\nflush 1 -> clean 1\nflush 0 -> flushed 0\ngraph 1\n0: - - - -\n",
    ),
    // The objects of a chain are copied into the page that is scanned, and scanned in the same scan.
    (
        "2",
        "1 begin\n1 root 0\n1 new 1 1\n1 new 2 60\n1 new 3 0\n1 link 0 0 1\n1 link 1 0 2\n1 link 2 0 3\n1 commit\nflip\nscan\nscan\nscan\n",
        "1 begin -> begun 1\n1 root 0 -> done\n1 new 1 1 -> done\n1 new 2 60 -> done\n1 new 3 0 -> done\n1 link 0 0 1 -> done\n1 link 1 0 2 -> done\n1 link 2 0 3 -> done\n1 seal -> sealed 1\nforce -> durable 1\nflip -> flipped 1 6\nscan -> scanned 2 3 67\nscan -> scanned 3 0 0\nscan -> collected 73\nforce -> durable 1\ngraph 4\n0: @1 - - -\n1: @2\n2: @3 - - - - - - - - - - - - - - - - - - - - - - - - - - - - - - - - - - - - - - - - - - - - - - - - - - - - - - - - - - -\n3:\n",
    ),
    // An object that is locked, and that no handle holds, is copied, and its lock moves along.
    (
        "2",
        "1 begin\n1 root 0\n1 new 1 2\n1 new 2 1\n1 put 2 0 9\n1 link 1 0 2\n1 link 0 0 1\n1 commit\n1 begin\n1 root 0\n1 get 0 0 1\n1 get 1 1 3\n1 drop 1\n2 begin\nflip\n2 root 0\n2 get 0 0 1\n2 put 1 1 5\n2 get 1 0 2\n2 put 2 0 4\n1 abort\n2 put 1 1 5\n2 commit\n",
        "1 begin -> begun 1\n1 root 0 -> done\n1 new 1 2 -> done\n1 new 2 1 -> done\n1 put 2 0 9 -> done\n1 link 1 0 2 -> done\n1 link 0 0 1 -> done\n1 seal -> sealed 1\nforce -> durable 1\n1 begin -> begun 2\n1 root 0 -> done\n1 get 0 0 1 -> ref\n1 get 1 1 3 -> null\n1 drop 1 -> done\n2 begin -> begun 3\nflip -> flipped 2 10\n2 root 0 -> done\n2 get 0 0 1 -> ref\n2 put 1 1 5 -> busy 2\n2 get 1 0 2 -> ref\n2 put 2 0 4 -> done\n1 abort -> aborted\n2 put 1 1 5 -> done\n2 seal -> sealed 2\nforce -> durable 2\ngraph 3\n0: @1 - - -\n1: @2 5\n2: 4\n",
    ),
    // A field of a volatile object that no handle holds is updated, and what it refers to is copied.
    (
        "1",
        "1 begin\n1 root 0\n1 new 1 1\n1 put 1 0 9\n1 link 0 0 1\n1 commit\n1 begin\n1 root 0\n1 get 0 0 1\n1 new 2 1\n1 link 2 0 1\n1 new 3 1\n1 link 3 0 2\n1 drop 1\n1 drop 2\nflip\nscan\nscan\n1 get 3 0 4\n1 get 4 0 5\n1 get 5 0 6\n1 clear 0 0\n1 link 0 1 3\n1 commit\n",
        "1 begin -> begun 1\n1 root 0 -> done\n1 new 1 1 -> done\n1 put 1 0 9 -> done\n1 link 0 0 1 -> done\n1 seal -> sealed 1\nforce -> durable 1\n1 begin -> begun 2\n1 root 0 -> done\n1 get 0 0 1 -> ref\n1 new 2 1 -> done\n1 link 2 0 1 -> done\n1 new 3 1 -> done\n1 link 3 0 2 -> done\n1 drop 1 -> done\n1 drop 2 -> done\nflip -> flipped 2 9\nscan -> scanned 1 0 0\nscan -> collected 9\n1 get 3 0 4 -> ref\n1 get 4 0 5 -> ref\n1 get 5 0 6 -> int 9\n1 clear 0 0 -> done\n1 link 0 1 3 -> done\n1 seal -> sealed 2\nforce -> durable 2\ngraph 4\n0: - @1 - -\n1: @2\n2: @3\n3: 9\n",
    ),
    // The before-image of a write is the word that the scan of its page has left: an abort puts back where the copy stands.
    (
        "1",
        "1 begin\n1 root 0\n1 new 1 1\n1 put 1 0 9\n1 link 0 0 1\n1 commit\n1 begin\n1 root 0\nflip\n1 clear 0 0\nscan\n1 abort\n",
        "1 begin -> begun 1\n1 root 0 -> done\n1 new 1 1 -> done\n1 put 1 0 9 -> done\n1 link 0 0 1 -> done\n1 seal -> sealed 1\nforce -> durable 1\n1 begin -> begun 2\n1 root 0 -> done\nflip -> flipped 1 6\n1 clear 0 0 -> done\nscan -> collected 9\n1 abort -> aborted\nforce -> durable 1\ngraph 2\n0: @1 - - -\n1: 9\n",
    ),
    // A seal promotes beside a collection that has more to copy, and what it promotes is not gray.
    (
        "4",
        "1 begin\n1 root 0\n1 new 1 60\n1 new 2 60\n1 new 3 60\n1 link 0 0 1\n1 link 1 0 2\n1 link 2 0 3\n1 commit\n1 begin\n1 root 0\nflip\n1 get 0 0 1\n1 new 2 3\n1 link 2 0 1\n1 link 0 1 2\n1 seal\n2 begin\n2 root 0\n2 get 0 1 1\nscan\nscan\nscan\n2 get 1 0 2\n2 get 2 0 3\n2 abort\n",
        "1 begin -> begun 1\n1 root 0 -> done\n1 new 1 60 -> done\n1 new 2 60 -> done\n1 new 3 60 -> done\n1 link 0 0 1 -> done\n1 link 1 0 2 -> done\n1 link 2 0 3 -> done\n1 seal -> sealed 1\nforce -> durable 1\n1 begin -> begun 2\n1 root 0 -> done\nflip -> flipped 1 6\n1 get 0 0 1 -> ref\n1 new 2 3 -> done\n1 link 2 0 1 -> done\n1 link 0 1 2 -> done\n1 seal -> sealed 2\n2 begin -> begun 3\n2 root 0 -> done\n2 get 0 1 1 -> ref\nscan -> scanned 5 1 62\nscan -> scanned 6 0 0\nscan -> collected 197\n2 get 1 0 2 -> ref\n2 get 2 0 3 -> ref\n2 abort -> aborted\nforce -> durable 2\ngraph 5\n0: @1 @2 - -\n1: @3 - - - - - - - - - - - - - - - - - - - - - - - - - - - - - - - - - - - - - - - - - - - - - - - - - - - - - - - - - - -\n2: @1 - -\n3: @4 - - - - - - - - - - - - - - - - - - - - - - - - - - - - - - - - - - - - - - - - - - - - - - - - - - - - - - - - - - -\n4: - - - - - - - - - - - - - - - - - - - - - - - - - - - - - - - - - - - - - - - - - - - - - - - - - - - - - - - - - - - -\n",
    ),
    // A field that leads to a volatile object is updated by a seal in a gray object.
    (
        "1",
        "1 begin\n1 root 0\n1 new 1 1\n1 put 1 0 9\n1 link 0 0 1\nflip\n1 seal\nscan\nscan\nforce\n",
        "1 begin -> begun 1\n1 root 0 -> done\n1 new 1 1 -> done\n1 put 1 0 9 -> done\n1 link 0 0 1 -> done\nflip -> flipped 1 6\n1 seal -> sealed 1\nscan -> scanned 1 0 0\nscan -> collected 9\nforce -> durable 1\ngraph 2\n0: @1 - - -\n1: 9\n",
    ),
];

fn expect_row(
    rt: &impl Abort,
    alloc: Global,
    (pages, script, output): &Row,
) -> Result<(), AllocError> {
    let line = format!(in alloc; "heap play --fresh {pages}")?;
    let played = play(alloc, line.as_str(), script, Pick::Newest)?;
    expect_done(rt, &played, output);
    Ok(())
}

#[test]
fn scripts_with_collections_are_answered(rt: HostRuntime) -> Result<(), Fail> {
    for row in &ROWS {
        expect_row(&rt, rt.alloc(), row)?;
    }
    Ok(())
}
