//! A script tried on disks that stop and fail; and what it is said to make, spoiled, which has to fail.
use crash_trials::{Expected, Settings, try_script};
use std::process::Abort;
use std::test::Fail;

const SMALL: Settings = Settings {
    pages: 1,
    log_bytes: 4096,
};

const TWO_COMMITS: &str =
    "1 begin\n1 root 0\n1 put 0 0 1\n1 commit\n1 begin\n1 root 0\n1 put 0 0 2\n1 commit\n";

#[test]
fn two_commits_come_back(rt: HostRuntime) -> Result<(), Fail> {
    let report = try_script(rt.alloc(), SMALL, TWO_COMMITS.as_bytes()).expect(&rt, "no report");
    let right = Expected {
        calls: 8,
        commits: 2,
    };
    assert!(rt; report.is_as(right));
    Ok(())
}

#[test]
fn a_wrong_expectation_fails(rt: HostRuntime) -> Result<(), Fail> {
    let report = try_script(rt.alloc(), SMALL, TWO_COMMITS.as_bytes()).expect(&rt, "no report");
    let calls = Expected {
        calls: 7,
        commits: 2,
    };
    let commits = Expected {
        calls: 8,
        commits: 3,
    };
    assert!(rt; !report.is_as(calls));
    assert!(rt; !report.is_as(commits));
    Ok(())
}
