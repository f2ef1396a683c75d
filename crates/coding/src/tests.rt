use crate::code;
use crate::read::{read_back, read_file};
use av1::{BlockSize, Call, TileBlockOffset};
use record::{Entry, Sink, WordRecord};
use replay::Standing;
use script::parse::parse;
use std::test::Fail;

const EXAMPLE: &str = "tile 16 6 3
partition 0 0 64X64 SPLIT
skip 0 0 8X8 1
open
skip 2 0 8X8 0
back
alphas 16 -16
keep
segment 2 0 8X8 skipped
context 0 0 8X8 8X4
row";

/// The record of the example's calls that stand: one entry, one entry, three entries.
const RECORD: &[u8] = b"\x01\x02\xce\x99\x01\x00\
\x01\x02\x80\x80\x01\x00\
\x06\x08\x80\x40\x80\x20\x0f\x10\x80\x10\x00\x0f\x10\x80\x10\x00";

/// Scripts and bytes, and what is printed. The faults of a vector and of a segment are worked examples of the rules.
const READ: [(&str, &[u8], &str); 9] = [
    (
        EXAMPLE,
        RECORD,
        "partition 0 0 64X64 SPLIT
skip 0 0 8X8 1
alphas 16 -16
segment 2 0 8X8 skipped # 0
context 0 0 8X8 8X4
row
read 6 of 6
",
    ),
    (
        "tile 16 6 3\nvector 0 8 HIGH",
        b"\x01\x04\x80\xc0\x01\x80\x80\x01\x00\x02\x80\x80\x02\x01",
        "read 0 of 1: refused 20, entry 1 of the decision, table 374, place 1\n",
    ),
    (
        "tile 16 6 3\nskip 0 0 8X8 0\nvector 0 8 HIGH",
        b"\x00\x02\x80\x80\x02\x80\x80\x01\x01\x04\x80\xc0\x01\x80\x80\x01\x00\x02\x80\x80\x02\x01",
        "skip 0 0 8X8 0
read 1 of 2: refused 20, entry 1 of the decision, table 374, place 2
",
    ),
    (
        "tile 16 6 3\nsegment 0 0 8X8 2\nsegment 2 0 8X8 skipped",
        b"\x02\x08\x80\xc0\x01\x80\xa0\x01",
        "segment 0 0 8X8 2\nsegment 2 0 8X8 skipped # 2\nread 2 of 2\n",
    ),
    (
        "tile 16 6 3\nsegment 0 0 8X8 2",
        b"\x05\x08\x80\x60\x80\x40",
        "read 0 of 1: refused 21, entry 0 of the decision, table 30, place 0\n",
    ),
    (
        "tile 16 6 3\nrow\nskip 0 0 8X8 1",
        b"",
        "row\nread 1 of 2: refused 19, entry 0 of the decision, table 0, place 0\n",
    ),
    (
        "tile 16 6 3\nrow",
        b"\x00\x02\x80\x80\x02\x80\x80\x01\x00",
        "refused 22, byte 8\n",
    ),
    ("tile 16 6 8\nrow", b"\x00", "start refused 2\n"),
    ("tile 16 6 3\nskip 1 0 8X8 1", b"", "read 0 of 0\n"),
];

#[test]
fn files_are_read(rt: HostRuntime) -> Result<(), Fail> {
    let heap = rt.alloc();
    for (text, bytes, printed) in READ {
        let script = parse(heap, text)?;
        let Ok(came) = read_file(heap, &script, bytes) else {
            return Err(Fail::new("a file was not read"));
        };
        assert_eq!(rt; came.as_str(), printed);
    }
    Ok(())
}

#[test]
fn the_record_is_packed(rt: HostRuntime) -> Result<(), Fail> {
    let heap = rt.alloc();
    let script = parse(heap, EXAMPLE)?;
    let Ok(coding) = code(heap, &script) else {
        return Err(Fail::new("the example was not coded"));
    };
    assert!(rt; coding.packed.as_slice() == RECORD);
    Ok(())
}

const ROW: Standing = Standing {
    call: Call::RowStart,
    segment: 0,
};

const FLAG: Standing = Standing {
    call: Call::Skip {
        bo: TileBlockOffset { x: 0, y: 0 },
        bsize: BlockSize::BLOCK_8X8,
        skip: true,
    },
    segment: 0,
};

/// The entry of a first skip of 0.
const NO_SKIP: Entry = Entry {
    s: 0,
    n: 2,
    fl: 32768,
    fh: 16384,
};

/// Calls that are not those of the record: what is read stops, and then answers otherwise.
#[test]
fn only_equal_calls_are_counted(rt: HostRuntime) -> Result<(), Fail> {
    let heap = rt.alloc();
    let script = parse(heap, "tile 16 6 3")?;
    let mut sink = WordRecord::new(heap, 1)?;
    for equal in 1..3 {
        let Ok(compared) = read_back(heap, &script, &sink, &[ROW, FLAG, ROW]) else {
            return Err(Fail::new("the record was not read"));
        };
        assert_eq!(rt; (compared.equal, compared.standing), (equal, 3));
        assert!(rt; sink.put(NO_SKIP).is_ok() == (equal == 1));
    }
    Ok(())
}
