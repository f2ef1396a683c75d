use crate::{answer, command_line, tell};
use script::ScriptError;
use std::alloc::{AllocError, Global};
use std::fs;
use std::test::Fail;
use std::vec::IntoIter;

/// The example of the rules, and what is printed for it.
const EXAMPLE: &str = "tile 16 6 3           # 16 columns, 6 rows, last active segment 3
partition 0 0 64X64 SPLIT
skip 0 0 8X8 1
open
skip 2 0 8X8 0
segment 2 0 8X8 2
row
back
alphas 16 -16
keep
keep
segment 2 0 8X8 skipped
context 0 0 8X8 8X4
row
";

const REPORT: &str = "2: ok 1
3: ok 1
4: ok 1
5: ok 1
6: ok 1 2
7: refused 16
8: ok
9: ok 3
10: ok
11: refused 14
12: ok 0 0
13: ok
14: ok

record 5 entries, 28 bytes packed
state 234c2a4612b7173b
read back 6 of 6 standing calls equal
";

/// Its record: one entry, one entry, three entries.
const RECORD: &[u8] = b"\x01\x02\xce\x99\x01\x00\
\x01\x02\x80\x80\x01\x00\
\x06\x08\x80\x40\x80\x20\x0f\x10\x80\x10\x00\x0f\x10\x80\x10\x00";

const READ: &str = "partition 0 0 64X64 SPLIT
skip 0 0 8X8 1
alphas 16 -16
segment 2 0 8X8 skipped # 0
context 0 0 8X8 8X4
row
read 6 of 6
";

/// Command lines behind the program's name, and what is printed. Record and state are written by the second of them.
const LINES: [(&[&str], &str); 4] = [
    (&["example.script"], REPORT),
    (
        &[
            "--state",
            "example.state",
            "example.script",
            "--packed",
            "example.packed",
        ],
        REPORT,
    ),
    (&["--read", "example.packed", "example.script"], READ),
    (&["example.script", "--read", "example.packed"], READ),
];

const USAGE: &str =
    "usage: temuvald [--packed FILE] [--state FILE] [SCRIPT], or temuvald --read FILE [SCRIPT]";

/// Command lines that are refused, and why.
const WRONG: [(&[&str], &str); 8] = [
    (&["--packed"], USAGE),
    (&["example.script", "--state"], USAGE),
    (&["--read"], USAGE),
    (&["one", "two"], USAGE),
    (
        &["--state", "one", "--state", "two", "example.script"],
        USAGE,
    ),
    (
        &["--read", "one", "--packed", "two", "example.script"],
        USAGE,
    ),
    (
        &["absent.script"],
        "absent.script: No such file or directory (os error 2)",
    ),
    (
        &["--read", "absent.packed", "example.script"],
        "absent.packed: No such file or directory (os error 2)",
    ),
];

fn arguments(heap: Global, words: &[&str]) -> Result<IntoIter<String>, AllocError> {
    let mut args = Vec::new(heap);
    args.push(String::from_str(heap, "temuvald")?)?;
    for word in words {
        args.push(String::from_str(heap, word)?)?;
    }
    Ok(args.into_iter())
}

fn outcome(rt: &HostRuntime, words: &[&str]) -> anyhow::Result<Result<String, ScriptError>> {
    let line = command_line(arguments(rt.alloc(), words)?)?;
    answer(rt, line)
}

#[test]
fn files_are_written_and_read(rt: HostRuntime) -> Result<(), Fail> {
    fs::write(&rt, "example.script", EXAMPLE)?;
    for (words, printed) in LINES {
        match outcome(&rt, words) {
            Ok(Ok(report)) => assert_eq!(rt; report.as_str(), printed),
            _ => return Err(Fail::new("a command line was not taken")),
        }
    }
    assert!(rt; fs::read(&rt, "example.packed")?.as_slice() == RECORD);
    // 430 words, 520 context bytes, 16 × 6 cells; the first table, and the first cell, which is skipped.
    let state = fs::read(&rt, "example.state")?;
    assert!(rt; state.len() == 860 + 520 + 2 * 96);
    assert!(rt; state.as_slice().starts_with(b"\x00\x44\x01\x00"));
    assert!(rt; state.as_slice().get(1380) == Some(&1));
    for (words, why) in WRONG {
        match outcome(&rt, words) {
            Ok(_) => return Err(Fail::new("a wrong command line was taken")),
            Err(e) => assert_eq!(rt; e.to_string(rt.alloc())?.as_str(), why),
        }
    }
    fs::write(&rt, "example.script", "tile 16 6")?;
    let Ok(fault) = outcome(&rt, &["example.script"]) else {
        return Err(Fail::new("a script was not read"));
    };
    assert!(rt; fault.is_err());
    fs::remove_file(&rt, "example.script")?;
    fs::remove_file(&rt, "example.packed")?;
    fs::remove_file(&rt, "example.state")?;
    Ok(())
}

/// The status is 1 for a script with a fault alone.
#[test]
fn a_fault_ends_with_status_1(rt: HostRuntime) -> Result<(), Fail> {
    let heap = rt.alloc();
    let Ok(good) = tell(&rt, Ok(String::new(heap))) else {
        return Err(Fail::new("nothing was printed"));
    };
    let Ok(wrong) = tell(&rt, Err(ScriptError::Memory)) else {
        return Err(Fail::new("no fault was printed"));
    };
    assert_eq!(rt;
        format!(in heap; "{good:?}")?.as_str(),
        "ExitCode(unix_exit_status(0))"
    );
    assert_eq!(rt;
        format!(in heap; "{wrong:?}")?.as_str(),
        "ExitCode(unix_exit_status(1))"
    );
    Ok(())
}
