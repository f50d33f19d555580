//! Good and bad command lines, as the table of commands has them.
use crate::compare::same;
use command_words::{Command, CommandError, Numbers, Stop, read_command};
use std::alloc::{AllocError, Global};
use std::process::Abort;
use std::test::Fail;

/// Compares what a line of words asks for, where blanks separate the words after the program's name.
fn check_line(
    rt: &(impl Abort + AllocGlobal),
    line: &str,
    want: Result<Command, CommandError>,
) -> Result<(), AllocError> {
    let found = read_command(rt.alloc(), &words_of(rt.alloc(), line)?);
    same(rt, (line, found), (line, want));
    Ok(())
}

fn words_of(alloc: Global, line: &str) -> Result<Vec<String>, AllocError> {
    let mut words = Vec::new(alloc);
    words.push(String::from_str(alloc, "heap")?)?;
    for word in line.split(' ') {
        if !word.is_empty() {
            words.push(String::from_str(alloc, word)?)?;
        }
    }
    Ok(words)
}

/// Command lines, and what they ask for. A disk that only stops again never stops before.
const COMMANDS: [(&str, Command); 24] = [
    (
        "format 1 64 1",
        Command::Format(Numbers {
            pages: 1,
            log_bytes: 64,
            first: 1,
        }),
    ),
    (
        "format 16384 1073741824 4294967295",
        Command::Format(Numbers {
            pages: 16384,
            log_bytes: 1_073_741_824,
            first: 4_294_967_295,
        }),
    ),
    (
        "format 3 65536 7",
        Command::Format(Numbers {
            pages: 3,
            log_bytes: 65536,
            first: 7,
        }),
    ),
    (
        "format 003 065536 0007",
        Command::Format(Numbers {
            pages: 3,
            log_bytes: 65536,
            first: 7,
        }),
    ),
    (
        "format +3 +64 +7",
        Command::Format(Numbers {
            pages: 3,
            log_bytes: 64,
            first: 7,
        }),
    ),
    (
        "format -- 3 64 7",
        Command::Format(Numbers {
            pages: 3,
            log_bytes: 64,
            first: 7,
        }),
    ),
    (
        "play",
        Command::Play {
            fresh: None,
            stop: None,
        },
    ),
    (
        "play --fresh 1",
        Command::Play {
            fresh: Some(1),
            stop: None,
        },
    ),
    (
        "play --fresh=16384",
        Command::Play {
            fresh: Some(16384),
            stop: None,
        },
    ),
    (
        "play --stop 0",
        Command::Play {
            fresh: None,
            stop: Some(Stop {
                after: 0,
                again: None,
            }),
        },
    ),
    (
        "play --stop 18446744073709551615",
        Command::Play {
            fresh: None,
            stop: Some(Stop {
                after: u64::MAX,
                again: None,
            }),
        },
    ),
    (
        "play --again 0",
        Command::Play {
            fresh: None,
            stop: Some(Stop {
                after: u64::MAX,
                again: Some(0),
            }),
        },
    ),
    (
        "play --again 0 --fresh 16384",
        Command::Play {
            fresh: Some(16384),
            stop: Some(Stop {
                after: u64::MAX,
                again: Some(0),
            }),
        },
    ),
    (
        "play --stop 4 --again 5",
        Command::Play {
            fresh: None,
            stop: Some(Stop {
                after: 4,
                again: Some(5),
            }),
        },
    ),
    (
        "play --again 5 --stop 4",
        Command::Play {
            fresh: None,
            stop: Some(Stop {
                after: 4,
                again: Some(5),
            }),
        },
    ),
    (
        "play --stop 4 --fresh 2 --again 18446744073709551615",
        Command::Play {
            fresh: Some(2),
            stop: Some(Stop {
                after: 4,
                again: Some(u64::MAX),
            }),
        },
    ),
    ("graph", Command::Graph),
    (
        "threads",
        Command::Threads {
            fresh: None,
            tries: 1000,
        },
    ),
    (
        "threads --tries 1",
        Command::Threads {
            fresh: None,
            tries: 1,
        },
    ),
    (
        "threads --tries=1000000 --fresh 16384",
        Command::Threads {
            fresh: Some(16384),
            tries: 1_000_000,
        },
    ),
    (
        "threads --fresh 1",
        Command::Threads {
            fresh: Some(1),
            tries: 1000,
        },
    ),
    (
        "load 1 2",
        Command::Load {
            seed: 1,
            count: 2,
            fresh: None,
        },
    ),
    (
        "load 0 0 --fresh 1",
        Command::Load {
            seed: 0,
            count: 0,
            fresh: Some(1),
        },
    ),
    (
        "load --fresh=16384 2147483647 100000",
        Command::Load {
            seed: 2_147_483_647,
            count: 100_000,
            fresh: Some(16384),
        },
    ),
];

#[test]
fn commands_are_read(rt: HostRuntime) -> Result<(), Fail> {
    for (line, command) in &COMMANDS {
        check_line(&rt, line, Ok(*command))?;
    }
    Ok(())
}

/// Words that are no command: one too few or too many, a number out of its range, an option of another command.
static OTHER_WORDS: [&str; 65] = [
    "",
    "format",
    "format 1",
    "format 1 64",
    "format 1 64 1 1",
    "format 0 65536 1",
    "format 16385 65536 1",
    "format 1 63 1",
    "format 1 1073741825 1",
    "format 1 64 0",
    "format 1 64 4294967296",
    "format x 64 1",
    "format 1 64 -1",
    "format --pages 1 64 1",
    "play --fresh 0",
    "play --fresh 16385",
    "play --fresh",
    "play --fresh 1 --fresh 1",
    "play --stop x",
    "play --stop",
    "play --stop=",
    "play --stop -1",
    "play --stop 18446744073709551616",
    "play --again 18446744073709551616",
    "play --stop 1 --stop 1",
    "play --again 1 --stop 2 --again 1",
    "play --help",
    "play -h",
    "play --version",
    "play 1",
    "play --threads 1",
    "graph x",
    "graph --fresh 1",
    "graph graph",
    "threads x",
    "threads --tries",
    "threads --tries 0",
    "threads --tries 1000001",
    "threads --tries -1",
    "threads --tries 1 --tries 1",
    "threads --fresh 0",
    "threads --fresh 16385",
    "threads --stop 1",
    "thread",
    "load",
    "load 1",
    "load 1 2 3",
    "load 2147483648 1",
    "load 1 100001",
    "load -1 1",
    "load 1 -1",
    "load x 1",
    "load 1 2 --fresh 0",
    "load 1 2 --fresh 16385",
    "load 1 2 --fresh 1 --fresh 1",
    "load 1 2 --stop 1",
    "load --seed 1 2",
    "help",
    "--help",
    "--version",
    "-h",
    "-V",
    "Graph",
    "grap",
    "--fresh 1 play",
];

#[test]
fn other_words_are_refused(rt: HostRuntime) -> Result<(), Fail> {
    for line in &OTHER_WORDS {
        check_line(&rt, line, Err(CommandError::Usage))?;
    }
    Ok(())
}

#[test]
fn no_words_at_all_are_no_command(rt: HostRuntime) {
    let found = read_command(rt.alloc(), &[]);
    same(&rt, found, Err(CommandError::Usage));
}
