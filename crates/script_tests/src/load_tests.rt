//! A load that is made from a number.
use crate::compare::same;
use script_text::{Draws, Load, read_script};
use std::alloc::Global;
use std::process::Abort;
use std::test::Fail;

#[test]
fn a_generator_draws_the_numbers_of_its_seed(rt: HostRuntime) {
    let mut draws = Draws::new(1);
    for want in [16_838, 5_758, 10_113, 17_515, 31_051, 5_627] {
        same(&rt, draws.draw(), want);
    }
}

/// The lines of the first rounds of the load that is made from 1, as its rules give them: objects of each kind, a field that is
/// cleared, aborts, and what follows the eighth and the sixteenth round.
const ROUNDS: [&str; 17] = [
    "1 begin\n1 root 0\n1 get 0 2 2\n1 new 1 6\n1 put 1 0 1\n1 link 0 2 1\n1 abort\nscan",
    "1 begin\n1 root 0\n1 get 0 3 2\n1 new 1 3\n1 put 1 0 2\n1 link 0 3 1\n1 commit\nscan",
    "1 begin\n1 root 0\n1 get 0 3 2\n1 new 1 2\n1 put 1 0 3\n1 link 1 1 2\n1 link 0 3 1\n1 commit\nscan",
    "1 begin\n1 root 0\n1 get 0 1 2\n1 new 1 6\n1 put 1 0 4\n1 link 1 1 2\n1 link 0 1 1\n1 commit\nscan",
    "1 begin\n1 root 0\n1 get 0 0 2\n1 new 1 4\n1 put 1 0 5\n1 link 0 0 1\n1 abort\nscan",
    "1 begin\n1 root 0\n1 get 0 1 2\n1 new 1 7\n1 put 1 0 6\n1 link 1 1 2\n1 link 0 1 1\n1 commit\nscan",
    "1 begin\n1 root 0\n1 get 0 2 2\n1 new 1 1\n1 put 1 0 7\n1 link 0 2 1\n1 commit\nscan",
    "1 begin\n1 root 0\n1 get 0 3 2\n1 new 1 2\n1 put 1 0 8\n1 link 1 1 2\n1 link 0 3 1\n1 commit\nscan\nflush 1",
    "1 begin\n1 root 0\n1 get 0 2 2\n1 new 1 7\n1 put 1 0 9\n1 link 1 1 2\n1 link 0 2 1\n1 commit\nscan",
    "1 begin\n1 root 0\n1 get 0 2 2\n1 clear 0 2\n1 commit\nscan",
    "1 begin\n1 root 0\n1 get 0 1 2\n1 new 1 4\n1 put 1 0 11\n1 link 0 1 1\n1 commit\nscan",
    "1 begin\n1 root 0\n1 get 0 3 2\n1 new 1 6\n1 put 1 0 12\n1 link 0 3 1\n1 commit\nscan",
    "1 begin\n1 root 0\n1 get 0 1 2\n1 new 1 2\n1 put 1 0 13\n1 link 0 1 1\n1 abort\nscan",
    "1 begin\n1 root 0\n1 get 0 0 2\n1 new 1 0\n1 link 0 0 1\n1 commit\nscan",
    "1 begin\n1 root 0\n1 get 0 3 2\n1 new 1 5\n1 put 1 0 15\n1 link 1 1 2\n1 link 0 3 1\n1 commit\nscan",
    "1 begin\n1 root 0\n1 get 0 1 2\n1 new 1 6\n1 put 1 0 16\n1 link 0 1 1\n1 commit\nscan\nflush 0\nflip",
    "1 begin\n1 root 0\n1 get 0 2 2\n1 new 1 2\n1 put 1 0 17\n1 link 0 2 1\n1 abort\nscan",
];

/// Compares the lines of the next round with the expected ones.
fn check_round(rt: &impl Abort, alloc: Global, load: &mut Load, want: &str) -> Result<(), Fail> {
    let want = read_script(alloc, want.as_bytes())?;
    let Some(round) = load.next_round(alloc)? else {
        panic!(rt; "no round");
    };
    same(rt, round.as_slice(), want.as_slice());
    Ok(())
}

/// There is no further round.
fn ends(rt: &impl Abort, alloc: Global, mut load: Load) -> Result<(), Fail> {
    same(rt, load.next_round(alloc)?.is_none(), true);
    Ok(())
}

#[test]
fn a_load_is_made_from_its_number(rt: HostRuntime) -> Result<(), Fail> {
    let alloc = rt.alloc();
    let mut load = Load::new(1, 17);
    for want in &ROUNDS {
        check_round(&rt, alloc, &mut load, want)?;
    }
    ends(&rt, alloc, load)?;
    ends(&rt, alloc, Load::new(2_147_483_647, 0))
}
