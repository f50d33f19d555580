//! Scripts that are drawn from a seed, and what a run appends to them.
use crate::stop_tests::Told;
use std::alloc::{AllocError, Global};

/// The sessions of a drawn script, of which each line's is drawn, and what a run appends for them: the abort of each one, ascending.
#[derive(Clone, Copy)]
pub struct Sessions {
    pub numbers: [u32; 4],
    pub aborts: &'static str,
}

/// Four sessions side by side, two of them at the end of their numbers, and one alone.
pub const FOUR: Sessions = Sessions {
    numbers: [1, 2, 3, 4],
    aborts: "1 abort -> aborted\n2 abort -> aborted\n3 abort -> aborted\n4 abort -> aborted\n",
};

pub const LAST_TWO: Sessions = Sessions {
    numbers: [31, 32, 31, 32],
    aborts: "31 abort -> aborted\n32 abort -> aborted\n",
};

pub const ONE: Sessions = Sessions {
    numbers: [1, 1, 1, 1],
    aborts: "1 abort -> aborted\n",
};

/// How many lines are drawn of a script that is played to its end.
pub const DRAWN_LINES: usize = 100;

/// A commit of objects for all: each of them is met from the root, and two of them from another one.
const SHARED: &str =
    "1 begin\n1 root 0\n1 new 1 2\n1 new 2 3\n1 link 0 0 1\n1 link 0 1 2\n1 link 1 1 2\n1 link 2 0 1\n1 commit\n";

/// Begins a transaction, which first reads one of two fields of the root, or none, so that others can write it.
fn write_begin(script: &mut String, s: u32, field: u64) -> Result<(), AllocError> {
    writeln!(script, "{s} begin\n{s} root 0")?;
    if field < 2 {
        writeln!(script, "{s} get 0 {field} 1")?;
    }
    Ok(())
}

/// The calls that are drawn, each as often as it stands here, and which of the three drawn numbers it names.
const DRAWN_CALLS: [(&str, &[usize]); 14] = [
    (" len", &[0]),
    (" drop", &[0]),
    (" new", &[0, 1]),
    (" new", &[0, 1]),
    (" link", &[0, 1, 2]),
    (" link", &[0, 1, 2]),
    (" link", &[0, 1, 2]),
    (" put", &[0, 1, 2]),
    (" put", &[0, 1, 2]),
    (" put", &[0, 1, 2]),
    (" get", &[0, 1, 2]),
    (" get", &[0, 1, 2]),
    (" same", &[0, 2]),
    (" clear", &[0, 1]),
];

fn write_number(script: &mut String, number: u64) -> Result<(), AllocError> {
    Ok(write!(script, " {number}")?)
}

fn write_call(
    script: &mut String,
    s: u32,
    (verb, named): (&str, &[usize]),
    numbers: [u64; 3],
) -> Result<(), AllocError> {
    write!(script, "{s}{verb}")?;
    for place in named {
        if let Some(number) = numbers.get(*place) {
            write_number(script, *number)?;
        }
    }
    script.push('\n')
}

/// Writes a drawn line: a call, a force, or the end of a transaction.
fn write_drawn(
    script: &mut String,
    s: u32,
    kind: usize,
    numbers: [u64; 3],
) -> Result<(), AllocError> {
    match DRAWN_CALLS.get(kind) {
        Some(call) => write_call(script, s, *call, numbers),
        None if kind == DRAWN_CALLS.len() => script.push_str("force\n"),
        None => write_end(script, s, numbers[1], numbers[0]),
    }
}

/// The transactions of these sessions begin.
fn draw_begin(alloc: Global, sessions: &Sessions) -> Result<String, AllocError> {
    let mut script = String::from_str(alloc, SHARED)?;
    for i in 0..4usize {
        write_begin(&mut script, sessions.numbers[3 - i], i as u64 % 3)?;
    }
    Ok(script)
}

/// A script of that many lines drawn from a seed: in transactions of these sessions, which are sealed or taken back and forced in
/// between, objects are made, linked, dropped and compared. Each session has a transaction at its end.
pub fn draw_script(
    alloc: Global,
    seed: u64,
    sessions: &Sessions,
    lines: usize,
) -> Result<String, AllocError> {
    let mut script = draw_begin(alloc, sessions)?;
    let mut state = seed;
    for _ in 0..lines {
        state = state
            .wrapping_mul(6_364_136_223_846_793_005)
            .wrapping_add(1_442_695_040_888_963_407);
        let s = sessions.numbers[(state >> 51) as usize % 4];
        // A handle, a field, and a second handle.
        let numbers = [(state >> 33) % 3, (state >> 41) % 3, (state >> 37) % 3];
        write_drawn(&mut script, s, (state >> 45) as usize % 16, numbers)?;
    }
    Ok(script)
}

/// Ends the transaction of a session in one of three ways, and begins the next one.
fn write_end(script: &mut String, s: u32, way: u64, field: u64) -> Result<(), AllocError> {
    let verb = match way {
        0 => "abort",
        1 => "seal",
        _ => "commit",
    };
    writeln!(script, "{s} {verb}")?;
    write_begin(script, s, field)
}

/// What a run appends to a drawn script: the aborts of its sessions, and a force of what they leave.
pub fn ending_of(
    alloc: Global,
    told: &Told<'_>,
    sessions: &Sessions,
) -> Result<String, AllocError> {
    let aborts = sessions.aborts;
    let sealed = told.heap.sealed();
    format!(in alloc; "{aborts}force -> durable {sealed}\n")
}

/// How many scripts are drawn of each kind.
pub const DRAWN: u64 = 12;
