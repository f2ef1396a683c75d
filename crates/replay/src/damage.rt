//! Records that were damaged after they were written, put to a reader with the questions of the calls that stand.
use crate::book::{Book, Standing};
use crate::call::make_call;
use crate::read::read_call;
use av1::{BlockSize, Call, Cell, MvSubpelPrecision, PartitionType, TileBlockOffset};
use journal::{Log, Spot, Window};
use record::{Entry, Sink, Source, WordRecord, WordSource};
use stage::{ReadError, ReadFault, Reader, Stage};
use std::alloc::{AllocError, Global};
use std::test::Fail;

/// The tile: 18 columns and 6 rows, so that it has both edges and a corner.
const COLUMNS: usize = 18;

const ROWS: usize = 6;

const UNITS: usize = 108;

const LAST: u8 = 3;

/// How many entries the calls leave, and how many calls stand, counted by hand.
const ENTRIES: usize = 132;

const STANDING: usize = 48;

const EMPTY: Cell = Cell {
    skip: false,
    segment: 0,
};

const SMALL: Window<4> = Window {
    first: 0,
    words: [0; 4],
};

const LARGE: Window<16> = Window {
    first: 0,
    words: [0; 16],
};

const SPOT: Spot = Spot::Left { at: 0, was: 0 };

/// A call, in the words of a script.
macro_rules! call {
    (partition $x:literal $y:literal $size:ident $partition:ident) => {
        Call::Partition {
            bo: TileBlockOffset { x: $x, y: $y },
            bsize: BlockSize::$size,
            partition: PartitionType::$partition,
        }
    };
    (skip $x:literal $y:literal $size:ident $skip:literal) => {
        Call::Skip {
            bo: TileBlockOffset { x: $x, y: $y },
            bsize: BlockSize::$size,
            skip: $skip,
        }
    };
    (segment $x:literal $y:literal $size:ident skipped) => {
        Call::Segment {
            bo: TileBlockOffset { x: $x, y: $y },
            bsize: BlockSize::$size,
            segment: None,
        }
    };
    (segment $x:literal $y:literal $size:ident $id:literal) => {
        Call::Segment {
            bo: TileBlockOffset { x: $x, y: $y },
            bsize: BlockSize::$size,
            segment: Some($id),
        }
    };
    (alphas $u:expr, $v:expr) => {
        Call::Alphas { u: $u, v: $v }
    };
    (vector $row:expr, $col:expr, $precision:ident) => {
        Call::Vector {
            row: $row,
            col: $col,
            precision: MvSubpelPrecision::$precision,
        }
    };
    (context $x:literal $y:literal $size:ident $sub:ident) => {
        Call::ContextUpdate {
            bo: TileBlockOffset { x: $x, y: $y },
            bsize: BlockSize::$size,
            subsize: BlockSize::$sub,
        }
    };
}

const CALLS: [Call; 59] = [
    // The bottom edge, a corner, both halves, the right edge twice.
    call!(partition 0 0 BLOCK_64X64 PARTITION_SPLIT),
    call!(partition 16 0 BLOCK_64X64 PARTITION_SPLIT),
    call!(partition 0 0 BLOCK_32X32 PARTITION_SPLIT),
    call!(partition 16 0 BLOCK_32X32 PARTITION_VERT),
    call!(partition 16 0 BLOCK_16X16 PARTITION_SPLIT),
    call!(partition 0 0 BLOCK_16X16 PARTITION_HORZ_A),
    call!(partition 4 0 BLOCK_8X8 PARTITION_VERT),
    call!(context 4 0 BLOCK_8X8 BLOCK_4X8),
    call!(partition 6 0 BLOCK_8X8 PARTITION_NONE),
    call!(partition 0 4 BLOCK_16X16 PARTITION_HORZ),
    call!(partition 16 4 BLOCK_16X16 PARTITION_SPLIT),
    call!(skip 0 0 BLOCK_8X8 true),
    call!(skip 2 0 BLOCK_8X8 true),
    call!(skip 0 4 BLOCK_16X16 true),
    call!(skip 16 0 BLOCK_64X16 false),
    call!(skip 2 2 BLOCK_8X8 true),
    call!(skip 4 4 BLOCK_4X4 false),
    call!(segment 0 0 BLOCK_8X8 2),
    call!(segment 2 0 BLOCK_8X8 3),
    call!(segment 0 2 BLOCK_8X8 0),
    call!(segment 2 2 BLOCK_8X8 1),
    call!(segment 4 0 BLOCK_8X8 skipped),
    call!(segment 4 2 BLOCK_16X8 skipped),
    call!(segment 0 4 BLOCK_32X8 3),
    call!(alphas 16, -16),
    call!(alphas 5, 5),
    call!(alphas 0, -1),
    call!(alphas - 7, 0),
    call!(alphas - 1, -16),
    call!(vector 0, 0, MV_SUBPEL_HIGH_PRECISION),
    call!(vector 16, 0, MV_SUBPEL_HIGH_PRECISION),
    call!(vector - 16384, 16384, MV_SUBPEL_HIGH_PRECISION),
    call!(vector 0, -6, MV_SUBPEL_LOW_PRECISION),
    call!(vector 8, -64, MV_SUBPEL_NONE),
    call!(vector 1000, -1000, MV_SUBPEL_HIGH_PRECISION),
    call!(context 0 0 BLOCK_32X32 BLOCK_32X16),
    call!(partition 8 0 BLOCK_32X32 PARTITION_VERT_4),
    Call::RowStart,
    call!(partition 0 0 BLOCK_32X32 PARTITION_HORZ_4),
    // A trial that is taken back.
    Call::Open,
    call!(skip 6 0 BLOCK_8X8 true),
    call!(vector 3, -3, MV_SUBPEL_HIGH_PRECISION),
    call!(segment 6 0 BLOCK_8X8 1),
    call!(partition 8 0 BLOCK_16X16 PARTITION_SPLIT),
    call!(context 8 0 BLOCK_16X16 BLOCK_8X8),
    Call::TakeBack { depth: 1 },
    call!(alphas 2, 3),
    Call::Keep { depth: 1 },
    // A trial that is kept.
    Call::Open,
    call!(skip 8 2 BLOCK_8X8 true),
    call!(vector - 8191, 12, MV_SUBPEL_HIGH_PRECISION),
    call!(alphas - 16, 4),
    call!(context 8 0 BLOCK_16X16 BLOCK_16X16),
    Call::Keep { depth: 1 },
    // A call that is refused.
    call!(segment 0 0 BLOCK_8X8 4),
    call!(skip 0 0 BLOCK_4X16 false),
    call!(segment 10 0 BLOCK_8X8 skipped),
    call!(partition 16 2 BLOCK_8X8 PARTITION_SPLIT),
    Call::RowStart,
];

/// What the calls leave: the record, the calls that stand, and how many entries there were behind each of these.
#[derive(Drop)]
struct Written {
    record: WordRecord,
    book: Book,
    ends: Vec<usize>,
}

fn write(heap: Global) -> Result<Written, Fail> {
    let mut map = [EMPTY; UNITS];
    let Ok(mut stage) = Stage::start(COLUMNS, ROWS, LAST, &mut map) else {
        return Err(Fail::new("no start"));
    };
    let mut record = WordRecord::new(heap, 1000)?;
    let mut small = [SMALL; 64];
    let mut large = [LARGE; 16];
    let mut spots = [SPOT; 64];
    let mut book = Book::new(heap);
    let mut ends = Vec::new(heap);
    for call in CALLS {
        let mut log = Log {
            small: &mut small,
            large: &mut large,
            spots: &mut spots,
        };
        let answer = make_call(&mut stage, &mut record, &mut map, &mut log, call);
        book.note(call, answer)?;
        let standing = book.standing().len();
        ends.truncate(standing);
        if ends.len() < standing {
            ends.push(record.count())?;
        }
    }
    Ok(Written { record, book, ends })
}

/// The number of the standing call that wrote an entry, and the number of the first entry that it wrote.
fn writer_of(ends: &[usize], entry: usize) -> (usize, usize) {
    let mut call = 0usize;
    let mut first = 0;
    for end in ends {
        if *end > entry {
            break;
        }
        call = call.wrapping_add(1);
        first = *end;
    }
    (call, first)
}

/// What a refused read leaves as it was.
#[derive(Clone, Copy, PartialEq)]
struct Moment {
    words: [u16; 430],
    above: [u8; 512],
    left: [u8; 8],
    map: [Cell; UNITS],
    place: usize,
}

fn moment_of(reader: &Reader, source: &WordSource<'_>, map: &[Cell; UNITS]) -> Moment {
    Moment {
        words: *reader.words(),
        above: *reader.above(),
        left: *reader.left(),
        map: *map,
        place: source.place(),
    }
}

/// What a refusal tells. One that is no fault of an entry tells no place.
#[derive(Clone, Copy, PartialEq, Debug)]
struct Told {
    number: u8,
    place: usize,
    table: usize,
    entry: usize,
}

fn told_by(why: ReadError) -> Told {
    match why {
        ReadError::Fault(fault) => Told {
            number: why.number(),
            place: fault.place(),
            table: fault.table(),
            entry: fault.entry(),
        },
        ReadError::Refused(_) => Told {
            number: why.number(),
            place: usize::MAX,
            table: usize::MAX,
            entry: usize::MAX,
        },
    }
}

/// How a reading ended.
#[derive(Drop)]
struct End {
    reader: Reader,
    place: usize,
    /// How many questions were answered, and how many of the first of them by the standing decision.
    answered: usize,
    equal: usize,
    /// What the refusal of the next one tells, and whether it left everything as it was.
    told: Option<Told>,
    still: bool,
}

/// Puts the questions of the standing calls to a reader of the entries, up to the first that is refused.
fn read(entries: &[Entry], standing: &[Standing]) -> Option<End> {
    let mut map = [EMPTY; UNITS];
    let Ok(mut reader) = Reader::start(COLUMNS, ROWS, LAST, &mut map) else {
        return None;
    };
    let mut source = WordSource::new(entries);
    let mut answered = 0usize;
    let mut equal = 0usize;
    let mut refusal = None;
    let mut still = true;
    for call in standing {
        let was = moment_of(&reader, &source, &map);
        match read_call(&mut reader, &mut source, &mut map, call.question()) {
            Ok(answer) => {
                equal = equal.wrapping_add(usize::from(equal == answered && answer == *call));
                answered = answered.wrapping_add(1);
            }
            Err(why) => {
                refusal = Some(told_by(why));
                still = moment_of(&reader, &source, &map) == was;
                break;
            }
        }
    }
    let place = source.place();
    Some(End {
        reader,
        place,
        answered,
        equal,
        told: refusal,
        still,
    })
}

/// What holds however one entry was damaged. Where no question is refused, the decisions are not the standing ones, since
/// those have the entries that were written. Else an entry is at fault: it is missing at the end alone, and stands as far
/// behind the source's place as its number in its decision says; and a segment has one entry, by one of three tables.
fn is_lawful(end: &End, entries: usize) -> bool {
    let Some(told) = end.told else {
        return end.answered == STANDING && end.equal < STANDING && end.place <= entries;
    };
    let fault = match told.number {
        19 => told.place == entries,
        20 => told.place < entries,
        21 => told.place < entries && told.entry == 0 && [30, 38, 46].contains(&told.table),
        _ => false,
    };
    fault && end.still && end.place.checked_add(told.entry) == Some(told.place)
}

/// The entries, with another in place of entry `at`, or without it.
fn with(
    heap: Global,
    entries: &[Entry],
    at: usize,
    other: Option<Entry>,
) -> Result<Vec<Entry>, AllocError> {
    let mut damaged = Vec::new(heap);
    for (i, entry) in entries.iter().enumerate() {
        if i != at {
            damaged.push(*entry)?;
        } else if let Some(other) = other {
            damaged.push(other)?;
        }
    }
    Ok(damaged)
}

#[test]
fn an_undamaged_record_reads_back(rt: HostRuntime) -> Result<(), Fail> {
    let written = write(rt.alloc())?;
    let entries = written.record.entries();
    assert_eq!(rt; entries.len(), ENTRIES);
    assert_eq!(rt; written.book.standing().len(), STANDING);
    assert_eq!(rt; written.ends.len(), STANDING);
    let end = read(entries, written.book.standing()).ok_or("no start")?;
    assert_eq!(rt; (end.answered, end.equal), (STANDING, STANDING));
    assert_eq!(rt; end.told, None);
    assert_eq!(rt; end.place, ENTRIES);
    Ok(())
}

/// An entry with one of its numbers one higher or one lower, where there is such a number.
fn changed(entry: Entry, change: u8) -> Option<Entry> {
    let Entry { s, n, fl, fh } = entry;
    match change {
        0 => s.checked_add(1).map(|s| Entry { s, n, fl, fh }),
        1 => s.checked_sub(1).map(|s| Entry { s, n, fl, fh }),
        2 => n.checked_add(1).map(|n| Entry { s, n, fl, fh }),
        3 => n.checked_sub(1).map(|n| Entry { s, n, fl, fh }),
        4 => fl.checked_add(1).map(|fl| Entry { s, n, fl, fh }),
        5 => fl.checked_sub(1).map(|fl| Entry { s, n, fl, fh }),
        6 => fh.checked_add(1).map(|fh| Entry { s, n, fl, fh }),
        _ => fh.checked_sub(1).map(|fh| Entry { s, n, fl, fh }),
    }
}

/// How the reading of a record ends whose entry `at` is missing or unfit: up to its decision the answers are the standing
/// ones, and there it is at fault.
fn stops_at(end: &End, ends: &[usize], at: usize, number: u8) -> bool {
    let (call, first) = writer_of(ends, at);
    let Some(told) = end.told else {
        return false;
    };
    (end.answered, end.equal, end.place) == (call, call, first)
        && (told.number, told.place) == (number, at)
        && Some(told.entry) == at.checked_sub(first)
}

/// The table that a refusal tells.
fn table_of(end: &End) -> Option<usize> {
    end.told.map(|told| told.table)
}

/// An entry with one number changed is that of no symbol of its table: N is the table's own, and s has these fl and fh
/// alone. Another s with the same fl and fh would have a width of 0, and so would this one.
#[test]
fn a_changed_number(rt: HostRuntime) -> Result<(), Fail> {
    let written = write(rt.alloc())?;
    let entries = written.record.entries();
    for (i, entry) in entries.iter().enumerate() {
        assert!(rt; entry.fl > entry.fh, "entry {i} has a width of 0");
        let cut = read(&entries[..i], written.book.standing()).ok_or("no start")?;
        for change in 0..8 {
            let Some(other) = changed(*entry, change) else {
                continue;
            };
            let damaged = with(rt.alloc(), entries, i, Some(other))?;
            let end = read(&damaged, written.book.standing()).ok_or("no start")?;
            assert!(rt; is_lawful(&end, ENTRIES), "entry {i}, change {change}");
            assert!(rt;
                stops_at(&end, &written.ends, i, 20),
                "entry {i}, change {change}"
            );
            assert_eq!(rt;
                table_of(&end),
                table_of(&cut),
                "entry {i}, change {change}"
            );
        }
    }
    Ok(())
}

#[test]
fn a_record_cut_off(rt: HostRuntime) -> Result<(), Fail> {
    let written = write(rt.alloc())?;
    let entries = written.record.entries();
    for i in 0..entries.len() {
        let end = read(&entries[..i], written.book.standing()).ok_or("no start")?;
        assert!(rt; is_lawful(&end, i), "{i} entries");
        assert!(rt; stops_at(&end, &written.ends, i, 19), "{i} entries");
    }
    Ok(())
}

/// What comes behind the place of a removed entry may fit there or not; what comes before it is read as it was.
#[test]
fn a_removed_entry(rt: HostRuntime) -> Result<(), Fail> {
    let written = write(rt.alloc())?;
    let entries = written.record.entries();
    for i in 0..entries.len() {
        let damaged = with(rt.alloc(), entries, i, None)?;
        let end = read(&damaged, written.book.standing()).ok_or("no start")?;
        assert!(rt; is_lawful(&end, damaged.len()), "entry {i}");
        let (call, _) = writer_of(&written.ends, i);
        assert!(rt; end.equal >= call, "entry {i}");
        assert!(rt; end.told.is_none_or(|told| told.place >= i), "entry {i}");
    }
    Ok(())
}

/// The value of a table around which symbol `s` ends, by another reading of the rules: value `s` of the table, and 0
/// behind the last symbol.
fn value(words: &[u16; 430], table: usize, n: u8, s: u8) -> Option<u16> {
    if s.checked_add(1)? == n {
        return Some(0);
    }
    words.get(table.checked_add(usize::from(s))?).copied()
}

/// The entry of symbol `s` of a table.
fn entry_of(words: &[u16; 430], table: usize, n: u8, s: u8) -> Option<Entry> {
    let fl = match s.checked_sub(1) {
        Some(before) => value(words, table, n, before)?,
        None => 32768,
    };
    let fh = value(words, table, n, s)?;
    Some(Entry { s, n, fl, fh })
}

/// The symbols that are summed where the tile ends inside the lower half of a block, or inside its right half.
const BOTTOM: [u8; 6] = [2, 3, 4, 6, 7, 9];

const RIGHT: [u8; 6] = [1, 3, 4, 5, 6, 8];

/// The entry of symbol `s` at an edge: of a table whose value is the sum of the widths of six symbols of this one.
fn edge_entry_of(words: &[u16; 430], table: usize, summed: [u8; 6], s: u8) -> Option<Entry> {
    let mut sum = 0u16;
    for symbol in summed {
        let Entry { fl, fh, .. } = entry_of(words, table, 10, symbol)?;
        sum = sum.checked_add(fl.checked_sub(fh)?)?;
    }
    let (fl, fh) = if s == 0 { (32768, sum) } else { (sum, 0) };
    Some(Entry { s, n: 2, fl, fh })
}

/// The entry of symbol `s` in place of one that the call wrote.
fn entry_in_place(
    words: &[u16; 430],
    table: usize,
    call: Call,
    written: Entry,
    s: u8,
) -> Option<Entry> {
    match call {
        Call::Partition { bo, bsize, .. } if written.n == 2 => {
            let rows = bo.y.checked_add(bsize.height_mi() / 2)? < ROWS;
            edge_entry_of(words, table, if rows { RIGHT } else { BOTTOM }, s)
        }
        _ => entry_of(words, table, written.n, s),
    }
}

/// The words when a table of 16 symbols, which has adapted fewer than 16 times, adapts to symbol `s`, by another reading of
/// the rules.
fn adapted(words: &[u16; 430], table: usize, s: u8) -> [u16; 430] {
    let mut after = *words;
    for i in 0..15 {
        if let Some(word) = after.get_mut(table.wrapping_add(i)) {
            if i < usize::from(s) {
                *word = word.wrapping_add(32768u16.saturating_sub(*word) / 32);
            } else {
                *word = word.wrapping_sub(*word / 32);
            }
        }
    }
    after
}

/// The words at an entry of a call: those at its first entry, except in a table that an earlier entry adapted. That is the
/// table of alpha v where u has the same sign, and `before` is u's symbol.
fn words_at(words: &[u16; 430], table: usize, call: Call, number: usize, before: u8) -> [u16; 430] {
    match call {
        Call::Alphas { u, v } if number == 2 && (u < 0) == (v < 0) => adapted(words, table, before),
        _ => *words,
    }
}

/// How the reading of a record ends whose entry `at` is that of symbol `s` of its table in place of another one. The
/// decision is another one then, and the answers before it are the standing ones. Only a segment's symbol above the last
/// active segment is refused at once.
fn turns_at(end: &End, call: usize, at: usize, above_last: bool, table: usize) -> bool {
    if end.equal != call {
        return false;
    }
    match end.told {
        None => !above_last,
        Some(told) if above_last => {
            end.answered == call
                && told
                    == Told {
                        number: 21,
                        place: at,
                        table,
                        entry: 0,
                    }
        }
        Some(told) => told.place > at,
    }
}

/// Each entry is that of its symbol in the table that is told where it is missing; the entries of the table's other symbols
/// take its place.
#[test]
fn another_symbol(rt: HostRuntime) -> Result<(), Fail> {
    let written = write(rt.alloc())?;
    let entries = written.record.entries();
    let mut before = 0;
    for (i, entry) in entries.iter().enumerate() {
        let (number, _) = writer_of(&written.ends, i);
        let call = written.book.standing().get(number).ok_or("no call")?.call;
        let cut = read(&entries[..i], written.book.standing()).ok_or("no start")?;
        let Told {
            table,
            entry: at,
            ..
        } = cut.told.ok_or("not refused")?;
        let words = words_at(cut.reader.words(), table, call, at, before);
        before = entry.s;
        for s in 0..entry.n {
            let other = entry_in_place(&words, table, call, *entry, s).ok_or("no entry")?;
            if s == entry.s {
                assert_eq!(rt; other, *entry, "entry {i}");
                continue;
            }
            let damaged = with(rt.alloc(), entries, i, Some(other))?;
            let end = read(&damaged, written.book.standing()).ok_or("no start")?;
            assert!(rt; is_lawful(&end, ENTRIES), "entry {i}, symbol {s}");
            let above_last = matches!(call, Call::Segment { .. }) && s > LAST;
            assert!(rt;
                turns_at(&end, number, i, above_last, table),
                "entry {i}, symbol {s}"
            );
        }
    }
    Ok(())
}

/// The entry of symbol `s` of 8 at the start, where each width is an eighth of 32768.
fn fresh_entry(s: u8) -> Entry {
    let fl = 32768u16.wrapping_sub(u16::from(s).wrapping_mul(4096));
    Entry {
        s,
        n: 8,
        fl,
        fh: fl.wrapping_sub(4096),
    }
}

const FIRST: Call = Call::Segment {
    bo: TileBlockOffset { x: 0, y: 0 },
    bsize: BlockSize::BLOCK_8X8,
    segment: Some(0),
};

/// The first segment of a tile, whose prediction is 0, is its symbol, or is refused where that is above `last`.
#[test]
fn a_symbol_above_the_last(rt: HostRuntime) -> Result<(), Fail> {
    let question = Standing {
        call: FIRST,
        segment: 0,
    }
    .question();
    for last in 0..8 {
        for s in 0..8 {
            let entries = [fresh_entry(s)];
            let mut map = [EMPTY; UNITS];
            let mut reader = Reader::start(COLUMNS, ROWS, last, &mut map)?;
            let mut source = WordSource::new(&entries);
            let was = moment_of(&reader, &source, &map);
            match read_call(&mut reader, &mut source, &mut map, question) {
                Ok(answer) => assert!(rt; s <= last && answer.segment == usize::from(s)),
                Err(why) => {
                    let above = ReadFault::AboveLast {
                        entry: 0,
                        table: 30,
                        place: 0,
                    };
                    assert_eq!(rt; why, ReadError::Fault(above), "symbol {s}");
                    assert!(rt; s > last && why.number() == 21);
                    assert!(rt; moment_of(&reader, &source, &map) == was, "symbol {s}");
                }
            }
        }
    }
    Ok(())
}
