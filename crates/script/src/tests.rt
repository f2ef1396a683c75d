use crate::digest::Digest;
use crate::name::Named;
use crate::parse::parse;
use crate::report::{
    Answered, Compared, Decided, Recorded, StartRefused, State, Stop, Stopped, SymbolPlace,
};
use crate::statement::SinkKind;
use crate::word::Word;
use crate::written::Written;
use av1::{Answer, BlockSize, Call, MvSubpelPrecision, PartitionType, Refusal, TileBlockOffset};
use std::fmt::Display;
use std::process::Abort;
use std::test::Fail;

const SIZES: [&str; 22] = [
    "4X4", "4X8", "8X4", "8X8", "8X16", "16X8", "16X16", "16X32", "32X16", "32X32", "32X64",
    "64X32", "64X64", "64X128", "128X64", "128X128", "4X16", "16X4", "8X32", "32X8", "16X64",
    "64X16",
];

#[test]
fn sizes_are_read_as_written(rt: HostRuntime) -> Result<(), Fail> {
    for name in SIZES {
        let size = BlockSize::from_name(name).ok_or(name)?;
        assert_eq!(rt; size.name(), name);
    }
    assert!(rt; BlockSize::from_name("64x64").is_none() && BlockSize::from_name("").is_none());
    Ok(())
}

#[test]
fn a_script_is_read(rt: HostRuntime) -> Result<(), Fail> {
    let text = "# a tile\ntile 16 8 7\r\n\n sink\tword 40 # small\nskip 4 0 16X8 1\nskip 0 2 8X8 0";
    let script = parse(rt.alloc(), text)?;
    assert_eq!(rt; (script.columns, script.rows), (16, 8));
    assert_eq!(rt; script.last, 7);
    assert_eq!(rt; script.sink, SinkKind::Word { places: 40 });
    assert!(rt; script.lines.len() == 2);
    assert_eq!(rt; (script.lines[0].number, script.lines[1].number), (5, 6));
    let skip = Call::Skip {
        bo: TileBlockOffset { x: 4, y: 0 },
        bsize: BlockSize::BLOCK_16X8,
        skip: true,
    };
    assert_eq!(rt; script.lines[0].written, Written::Call(skip));
    assert_eq!(rt; (script.log.small, script.log.large), (65536, 4096));
    assert_eq!(rt; script.log.spots, 1_048_576);
    Ok(())
}

/// Names of the partitions, in the order of their numbers.
const PARTITIONS: [&str; 10] = [
    "NONE", "HORZ", "VERT", "SPLIT", "HORZ_A", "HORZ_B", "VERT_A", "VERT_B", "HORZ_4", "VERT_4",
];

#[test]
fn partitions_are_read_as_numbered(rt: HostRuntime) -> Result<(), Fail> {
    for (number, name) in PARTITIONS.iter().enumerate() {
        let partition = PartitionType::from_name(name).ok_or(*name)?;
        assert_eq!(rt; partition.number(), number);
    }
    assert!(rt; PartitionType::from_name("HORZ_C").is_none());
    assert!(rt; PartitionType::from_name("none").is_none());
    Ok(())
}

/// Words with or without a minus, and the number that is read, from end to end of the range.
const INTEGERS: [(&str, i32); 6] = [
    ("16", 16),
    ("-16", -16),
    ("-0", 0),
    ("007", 7),
    ("2147483647", 2_147_483_647),
    ("-2147483648", -2_147_483_648),
];

#[test]
fn integers_are_read(rt: HostRuntime) {
    for (word, number) in INTEGERS {
        assert!(rt; i32::read(word).ok() == Some(number));
    }
    assert!(rt; i32::read("-").is_err() && i32::read("--1").is_err());
}

/// Lines and their calls. What no stage takes may stand in a script.
const CALLS: [(&str, Call); 16] = [
    (
        "partition 4 8 32X32 VERT_A",
        Call::Partition {
            bo: TileBlockOffset { x: 4, y: 8 },
            bsize: BlockSize::BLOCK_32X32,
            partition: PartitionType::PARTITION_VERT_A,
        },
    ),
    (
        "partition 0 0 4X4 NONE",
        Call::Partition {
            bo: TileBlockOffset { x: 0, y: 0 },
            bsize: BlockSize::BLOCK_4X4,
            partition: PartitionType::PARTITION_NONE,
        },
    ),
    (
        "skip 1 2 4X8 1",
        Call::Skip {
            bo: TileBlockOffset { x: 1, y: 2 },
            bsize: BlockSize::BLOCK_4X8,
            skip: true,
        },
    ),
    (
        "segment 6 2 8X16 5",
        Call::Segment {
            bo: TileBlockOffset { x: 6, y: 2 },
            bsize: BlockSize::BLOCK_8X16,
            segment: Some(5),
        },
    ),
    (
        "segment 6 2 16X8 skipped",
        Call::Segment {
            bo: TileBlockOffset { x: 6, y: 2 },
            bsize: BlockSize::BLOCK_16X8,
            segment: None,
        },
    ),
    (
        "segment 1 0 8X8 900",
        Call::Segment {
            bo: TileBlockOffset { x: 1, y: 0 },
            bsize: BlockSize::BLOCK_8X8,
            segment: Some(900),
        },
    ),
    ("alphas -13 4", Call::Alphas { u: -13, v: 4 }),
    ("alphas 17 -0", Call::Alphas { u: 17, v: 0 }),
    (
        "vector -24 9432 NONE",
        Call::Vector {
            row: -24,
            col: 9432,
            precision: MvSubpelPrecision::MV_SUBPEL_NONE,
        },
    ),
    (
        "vector 20000 -1 LOW # far",
        Call::Vector {
            row: 20000,
            col: -1,
            precision: MvSubpelPrecision::MV_SUBPEL_LOW_PRECISION,
        },
    ),
    (
        "vector 0 8 HIGH",
        Call::Vector {
            row: 0,
            col: 8,
            precision: MvSubpelPrecision::MV_SUBPEL_HIGH_PRECISION,
        },
    ),
    (
        "context 8 4 32X32 4X8",
        Call::ContextUpdate {
            bo: TileBlockOffset { x: 8, y: 4 },
            bsize: BlockSize::BLOCK_32X32,
            subsize: BlockSize::BLOCK_4X8,
        },
    ),
    ("\trow ", Call::RowStart),
    ("open", Call::Open),
    ("back 2", Call::TakeBack { depth: 2 }),
    ("keep 0", Call::Keep { depth: 0 }),
];

/// Lines that name no depth, and the calls that they make where 3 trials are open.
const INNERMOST: [(&str, Call); 2] = [
    ("back", Call::TakeBack { depth: 3 }),
    ("keep # all", Call::Keep { depth: 3 }),
];

#[test]
fn calls_are_read(rt: HostRuntime) -> Result<(), Fail> {
    let heap = rt.alloc();
    for (line, wanted) in CALLS {
        let mut text = String::from_str(heap, "tile 8 8 7\n")?;
        text.push_str(line)?;
        let script = parse(heap, text.as_str())?;
        assert!(rt; script.lines.len() == 1);
        assert_eq!(rt; script.lines[0].written, Written::Call(wanted));
    }
    Ok(())
}

#[test]
fn the_innermost_trial_is_meant(rt: HostRuntime) -> Result<(), Fail> {
    let heap = rt.alloc();
    for (line, wanted) in INNERMOST {
        let mut text = String::from_str(heap, "tile 8 8 7\n")?;
        text.push_str(line)?;
        let script = parse(heap, text.as_str())?;
        assert!(rt; script.lines.len() == 1);
        assert_eq!(rt; script.lines[0].written.call(3), wanted);
    }
    Ok(())
}

#[test]
fn the_lanes_are_read(rt: HostRuntime) -> Result<(), Fail> {
    let text = "tile 8 8 7\nlog 1 0 20\nopen";
    let script = parse(rt.alloc(), text)?;
    assert_eq!(rt; (script.log.small, script.log.large), (1, 0));
    assert_eq!(rt; script.log.spots, 20);
    assert_eq!(rt; script.sink, SinkKind::Packed { bytes: 16_777_216 });
    Ok(())
}

const BAD: [(&str, &str); 45] = [
    ("", "line 1: no tile line before 'end of script'"),
    ("# none\n\n", "line 3: no tile line before 'end of script'"),
    ("\nskip 0 0 8X8 1", "line 2: no tile line before 'skip'"),
    ("sink word 9", "line 1: no tile line before 'sink'"),
    ("tile 8 8 0\ntile 8 8 0", "line 2: second tile line: 'tile'"),
    (
        "tile 8 8 0\nsink word 1\nsink word 1",
        "line 3: second sink line: 'sink'",
    ),
    (
        "tile 8 8 0\nskip 0 0 8X8 1\nsink word 1",
        "line 3: after the first call: 'sink'",
    ),
    ("tile 8 8 0\nsink bag 1", "line 2: unknown sink 'bag'"),
    (
        "tile 8 8 0\nsink packed",
        "line 2: missing word after 'packed'",
    ),
    ("tile 8 8 0\nsink packed -1", "line 2: negative number '-1'"),
    (
        "tile 8 8 0\nsink word 1\nsink packed 1",
        "line 3: second sink line: 'sink'",
    ),
    ("row", "line 1: no tile line before 'row'"),
    (
        "tile 8 8 0\nalphas 1 1\nsink word 1",
        "line 3: after the first call: 'sink'",
    ),
    ("log 1 1 1", "line 1: no tile line before 'log'"),
    (
        "tile 8 8 0\nlog 1 1 1\nlog 1 1 1",
        "line 3: second log line: 'log'",
    ),
    (
        "tile 8 8 0\nopen\nlog 1 1 1",
        "line 3: after the first call: 'log'",
    ),
    ("tile 8 8 0\nlog 1 1", "line 2: missing word after '1'"),
    ("tile 8 8 0\nlog 1 -1 1", "line 2: negative number '-1'"),
    ("tile 8 8 0\nlog 1 1 1 1", "line 2: word too much: '1'"),
    ("tile 8 8 0\nopen 1", "line 2: word too much: '1'"),
    ("tile 8 8 0\nback one", "line 2: not a number: 'one'"),
    ("tile 8 8 0\nkeep -1", "line 2: negative number '-1'"),
    ("tile 8 8 0\nback 1 1", "line 2: word too much: '1'"),
    ("keep", "line 1: no tile line before 'keep'"),
    ("tile 8 8 0\nskp 0 0 8X8 1", "line 2: unknown word 'skp'"),
    ("tile 8 8 # 0", "line 1: missing word after '8'"),
    ("tile 8 8 0 0", "line 1: word too much: '0'"),
    ("tile 8 +8 0", "line 1: not a number: '+8'"),
    ("tile 8 -8 0", "line 1: negative number '-8'"),
    (
        "tile 8 8 18446744073709551616",
        "line 1: number too large: '18446744073709551616'",
    ),
    ("tile 8 8 0\nskip 0 0 8x8 1", "line 2: unknown size '8x8'"),
    ("tile 8 8 0\nskip 0 0 8X8 2", "line 2: neither 0 nor 1: '2'"),
    (
        "tile 8 8 0\npartition 0 0 8X8 HORZ_C",
        "line 2: unknown partition 'HORZ_C'",
    ),
    (
        "tile 8 8 0\npartition 0 0 8X8",
        "line 2: missing word after '8X8'",
    ),
    (
        "tile 8 8 0\npartition -2 0 8X8 NONE",
        "line 2: negative number '-2'",
    ),
    (
        "tile 8 8 0\nsegment 0 0 8X8 skip",
        "line 2: not a number: 'skip'",
    ),
    (
        "tile 8 8 0\nsegment 0 0 8X8 -1",
        "line 2: negative number '-1'",
    ),
    (
        "tile 8 8 0\nsegment 0 0 8X8 skipped 1",
        "line 2: word too much: '1'",
    ),
    ("tile 8 8 0\nalphas 1", "line 2: missing word after '1'"),
    (
        "tile 8 8 0\n\nalphas 2147483648 0",
        "line 3: number too large: '2147483648'",
    ),
    (
        "tile 8 8 0\nalphas 0 -2147483649",
        "line 2: number too large: '-2147483649'",
    ),
    ("tile 8 8 0\nalphas 1 +1", "line 2: not a number: '+1'"),
    (
        "tile 8 8 0\nvector 8 8 HI",
        "line 2: unknown precision 'HI'",
    ),
    ("tile 8 8 0\ncontext 0 0 8X8 8", "line 2: unknown size '8'"),
    ("tile 8 8 0\nrow 1", "line 2: word too much: '1'"),
];

#[test]
fn faults_are_told(rt: HostRuntime) -> Result<(), Fail> {
    let heap = rt.alloc();
    for (text, message) in BAD {
        let Err(e) = parse(heap, text) else {
            return Err(Fail::new("a wrong script was read"));
        };
        assert_eq!(rt; e.to_string(heap)?.as_str(), message);
    }
    Ok(())
}

#[test]
fn the_digest_is_fnv_1a(rt: HostRuntime) {
    let mut digest = Digest::new();
    digest.byte(b'a');
    assert_eq!(rt; digest.value(), 0xaf63_dc4c_8601_ec8c);
    let mut word = Digest::new();
    word.word(0x6f66);
    word.bytes(b"obar");
    assert_eq!(rt; word.value(), 0x8594_4171_f739_67e8);
}

fn prints(
    rt: &(impl Abort + AllocGlobal),
    shown: impl Display + Drop,
    line: &str,
) -> Result<(), Fail> {
    assert_eq!(rt; shown.to_string(rt.alloc())?.as_str(), line);
    Ok(())
}

#[test]
fn lines_are_printed(rt: HostRuntime) -> Result<(), Fail> {
    prints(
        &rt,
        Answered {
            line: 7,
            answer: Ok(Answer::Done),
        },
        "7: ok",
    )?;
    prints(
        &rt,
        Answered {
            line: 7,
            answer: Ok(Answer::Wrote(1)),
        },
        "7: ok 1",
    )?;
    prints(
        &rt,
        Answered {
            line: 12,
            answer: Ok(Answer::Segmented {
                count: 1,
                segment: 6,
            }),
        },
        "12: ok 1 6",
    )?;
    prints(
        &rt,
        Answered {
            line: 7,
            answer: Err(Refusal::Position),
        },
        "7: refused 5",
    )?;
    prints(&rt, StartRefused(Refusal::MapMemory), "start refused 3")?;
    prints(
        &rt,
        Recorded {
            entries: 4,
            bytes: 9,
        },
        "record 4 entries, 9 bytes packed",
    )?;
    prints(
        &rt,
        Compared {
            equal: 6,
            standing: 7,
        },
        "read back 6 of 7 standing calls equal",
    )?;
    prints(&rt, State(0xab01), "state 000000000000ab01")
}

/// What is printed for the calls above that a reader answers, where a segment answered 6.
const DECIDED: [(&str, usize); 9] = [
    ("partition 4 8 32X32 VERT_A", 0),
    ("skip 1 2 4X8 1", 2),
    ("segment 6 2 8X16 5", 3),
    ("segment 6 2 16X8 skipped # 6", 4),
    ("alphas -13 4", 6),
    ("alphas 17 0", 7),
    ("vector -24 9432 NONE", 8),
    ("context 8 4 32X32 4X8", 11),
    ("row", 12),
];

#[test]
fn decisions_are_printed(rt: HostRuntime) -> Result<(), Fail> {
    for (line, number) in DECIDED {
        let (_, call) = CALLS[number];
        prints(&rt, Decided { call, segment: 6 }, line)?;
    }
    Ok(())
}

#[test]
fn what_is_printed_is_read_again(rt: HostRuntime) -> Result<(), Fail> {
    let heap = rt.alloc();
    for (_, call) in CALLS {
        let mut text = String::from_str(heap, "tile 8 8 7\n")?;
        let line = Decided { call, segment: 6 }.to_string(heap)?;
        text.push_str(line.as_str())?;
        let script = parse(heap, text.as_str())?;
        assert!(rt; script.lines.len() == 1);
        assert_eq!(rt; script.lines[0].written, Written::Call(call));
    }
    Ok(())
}

#[test]
fn the_end_of_reading_is_told(rt: HostRuntime) -> Result<(), Fail> {
    let stopped = |stop| Stopped {
        read: 3,
        questions: 8,
        stop,
    };
    prints(&rt, stopped(None), "read 3 of 8")?;
    prints(
        &rt,
        stopped(Some(Stop::Refused(Refusal::Position))),
        "read 3 of 8: refused 5",
    )?;
    prints(
        &rt,
        stopped(Some(Stop::Symbol {
            why: Refusal::EntryUnfit,
            at: SymbolPlace {
                entry: 1,
                table: 374,
                place: 2,
            },
        })),
        "read 3 of 8: refused 20, entry 1 of the decision, table 374, place 2",
    )?;
    prints(
        &rt,
        Stop::Refused(Refusal::NotPacked { byte: 8 }),
        "refused 22, byte 8",
    )
}
