use crate::differences;
use crate::table::cases;
use std::test::Fail;

const TABLE: &str = "# a comment
tile 2 2 0
row #> ok
back #no
#> record 9
---
tile 2 2 0 # > no
row  #>  ok ";

/// The script of each case, the number of the line that ends it, and what has to be printed, with the lines that say so.
const CASES: [(&str, usize, &[(usize, &str)]); 2] = [
    (
        "# a comment\ntile 2 2 0\nrow #> ok\nback #no\n#> record 9\n",
        6,
        &[(3, "3: ok"), (5, "record 9")],
    ),
    ("tile 2 2 0 # > no\nrow  #>  ok \n", 9, &[(8, "2: ok")]),
];

/// What comes for the first case, and what is told of it.
const CAME: [(&str, &str); 5] = [
    ("3: ok\nrecord 9\n", ""),
    (
        "3: ok\nrecord 8\n",
        "line 5: expected 'record 9', came 'record 8'\n",
    ),
    ("3: ok\n", "line 5: expected 'record 9', came nothing\n"),
    (
        "3: ok\nrecord 9\nmore\n",
        "line 6: expected nothing, came 'more'\n",
    ),
    (
        "",
        "line 3: expected '3: ok', came nothing\nline 5: expected 'record 9', came nothing\n",
    ),
];

#[test]
fn differences_are_told(rt: HostRuntime) -> Result<(), Fail> {
    let heap = rt.alloc();
    let read = cases(heap, TABLE)?;
    assert!(rt; read.len() == CASES.len());
    for (i, (script, end, wanted)) in CASES.into_iter().enumerate() {
        let case = read.get(i).ok_or("no case")?;
        assert_eq!(rt; case.script.as_str(), script);
        assert_eq!(rt; (case.end, case.wanted.len()), (end, wanted.len()));
        for (k, (number, text)) in wanted.iter().enumerate() {
            let line = case.wanted.get(k).ok_or("no line")?;
            assert_eq!(rt; line.line, *number);
            assert_eq!(rt; line.text.as_str(), *text);
        }
    }
    let first = read.get(0).ok_or("no case")?;
    for (came, told) in CAME {
        let Ok(report) = differences(heap, first, came) else {
            return Err(Fail::new("nothing was told"));
        };
        assert_eq!(rt; report.as_str(), told);
    }
    Ok(())
}
