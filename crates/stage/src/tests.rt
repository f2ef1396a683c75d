use crate::reader::Reader;
use crate::reader::fault::{ReadError, ReadFault, SymbolFault};
use crate::state::Stage;
use av1::{BlockSize, Cell, MvSubpelPrecision, PartitionType, Refusal, TileBlockOffset};
use journal::{Log, Spot, Window};
use record::{Entry, Sink, Source, SourceFault, WordRecord, WordSource};
use std::test::Fail;

const EMPTY: Cell = Cell {
    skip: false,
    segment: 0,
};

const ORIGIN: TileBlockOffset = TileBlockOffset { x: 0, y: 0 };

const HIGH: MvSubpelPrecision = MvSubpelPrecision::MV_SUBPEL_HIGH_PRECISION;

fn entry(s: u8, n: u8, fl: u16, fh: u16) -> Entry {
    Entry { s, n, fl, fh }
}

#[test]
fn a_vector_stops_at_its_second_entry(rt: HostRuntime) -> Result<(), Fail> {
    let mut map = [EMPTY; 4];
    let Ok(mut reader) = Reader::start(2, 2, 0, &mut map) else {
        return Err(Fail::new("no start"));
    };
    let entries = [entry(1, 4, 24576, 16384), entry(0, 2, 32768, 1)];
    let mut source = WordSource::new(&entries);
    let before = *reader.words();
    let fault = ReadFault::Symbol {
        symbol: SymbolFault {
            source: SourceFault::EntryUnfit { place: 1 },
            table: 374,
        },
        entry: 1,
    };
    let read = reader.read_mv(&mut source, HIGH);
    assert_eq!(rt; read, Err(ReadError::Fault(fault)));
    assert_eq!(rt; (fault.refusal(), fault.place()), (Refusal::EntryUnfit, 1));
    assert_eq!(rt; (fault.table(), fault.entry()), (374, 1));
    assert_eq!(rt; ReadError::Fault(fault).number(), 20);
    assert_eq!(rt; *reader.words(), before);
    assert!(rt; source.place() == 0);
    Ok(())
}

#[test]
fn a_segment_above_the_last_is_told(rt: HostRuntime) -> Result<(), Fail> {
    let mut map = [EMPTY; 4];
    let Ok(mut reader) = Reader::start(2, 2, 3, &mut map) else {
        return Err(Fail::new("no start"));
    };
    let entries = [entry(5, 8, 12288, 8192)];
    let mut source = WordSource::new(&entries);
    let before = *reader.words();
    let size = BlockSize::BLOCK_8X8;
    let read = reader.read_segmentation(&mut source, &mut map, ORIGIN, size, false);
    let fault = ReadFault::AboveLast {
        entry: 0,
        table: 30,
        place: 0,
    };
    assert_eq!(rt; read, Err(ReadError::Fault(fault)));
    assert_eq!(rt; ReadError::Fault(fault).number(), 21);
    assert_eq!(rt; *reader.words(), before);
    assert!(rt; source.place() == 0 && map[0] == EMPTY);
    Ok(())
}

#[test]
fn a_partition_at_an_edge_adapts_nothing(rt: HostRuntime) -> Result<(), Fail> {
    let mut map = [EMPTY; 96];
    let Ok(mut reader) = Reader::start(16, 6, 0, &mut map) else {
        return Err(Fail::new("no start"));
    };
    let entries = [entry(1, 2, 19662, 0), entry(0, 2, 32768, 19662)];
    let mut source = WordSource::new(&entries);
    let before = *reader.words();
    let size = BlockSize::BLOCK_64X64;
    let split = reader.read_partition(&mut source, ORIGIN, size);
    assert_eq!(rt; split, Ok(PartitionType::PARTITION_SPLIT));
    let across = reader.read_partition(&mut source, ORIGIN, size);
    assert_eq!(rt; across, Ok(PartitionType::PARTITION_HORZ));
    let at_end = ReadFault::Symbol {
        symbol: SymbolFault {
            source: SourceFault::NoNextEntry { place: 2 },
            table: 166,
        },
        entry: 0,
    };
    let none = reader.read_partition(&mut source, ORIGIN, size);
    assert_eq!(rt; none, Err(ReadError::Fault(at_end)));
    assert_eq!(rt; *reader.words(), before);
    let outside = TileBlockOffset { x: 16, y: 0 };
    let refused = reader.read_partition(&mut source, outside, size);
    assert_eq!(rt; refused, Err(ReadError::Refused(Refusal::Position)));
    Ok(())
}

#[test]
fn what_is_written_is_read_back(rt: HostRuntime) -> Result<(), Fail> {
    let mut map = [EMPTY; 96];
    let Ok(mut stage) = Stage::start(16, 6, 3, &mut map) else {
        return Err(Fail::new("no start"));
    };
    let mut sink = WordRecord::new(rt.alloc(), 40)?;
    let mut log = Log {
        small: &mut [],
        large: &mut [],
        spots: &mut [],
    };
    let size = BlockSize::BLOCK_8X8;
    let beside = TileBlockOffset { x: 2, y: 0 };
    let vert = PartitionType::PARTITION_VERT;
    assert!(rt;
        stage
            .write_partition(&mut sink, &mut log, ORIGIN, size, vert)
            .is_ok()
    );
    let half = BlockSize::BLOCK_4X8;
    assert!(rt;
        stage
            .update_partition_context(&mut log, ORIGIN, half, size)
            .is_ok()
    );
    assert!(rt;
        stage
            .write_skip(&mut sink, &mut map, &mut log, ORIGIN, size, true)
            .is_ok()
    );
    let set = stage.write_segmentation(&mut sink, &mut map, &mut log, ORIGIN, size, Some(2));
    assert_eq!(rt; set, Ok((1, 2)));
    let skipped = stage.write_segmentation(&mut sink, &mut map, &mut log, beside, size, None);
    assert_eq!(rt; skipped, Ok((0, 2)));
    assert_eq!(rt; stage.write_cfl_alphas(&mut sink, &mut log, 16, -16), Ok(3));
    assert!(rt;
        stage
            .write_mv(&mut sink, &mut log, -16384, 16, HIGH)
            .is_ok()
    );
    let coarse = MvSubpelPrecision::MV_SUBPEL_NONE;
    assert!(rt; stage.write_mv(&mut sink, &mut log, 0, 24, coarse).is_ok());

    let mut cells = [EMPTY; 96];
    let Ok(mut reader) = Reader::start(16, 6, 3, &mut cells) else {
        return Err(Fail::new("no start"));
    };
    let mut source = WordSource::new(sink.entries());
    assert_eq!(rt; reader.read_partition(&mut source, ORIGIN, size), Ok(vert));
    assert!(rt; reader.update_partition_context(ORIGIN, half, size).is_ok());
    let skip = reader.read_skip(&mut source, &mut cells, ORIGIN, size);
    assert_eq!(rt; skip, Ok(true));
    let segment = reader.read_segmentation(&mut source, &mut cells, ORIGIN, size, false);
    assert_eq!(rt; segment, Ok(2));
    let near = reader.read_segmentation(&mut source, &mut cells, beside, size, true);
    assert_eq!(rt; near, Ok(2));
    assert_eq!(rt; reader.read_cfl_alphas(&mut source), Ok((16, -16)));
    assert_eq!(rt; reader.read_mv(&mut source, HIGH), Ok((-16384, 16)));
    assert_eq!(rt; reader.read_mv(&mut source, coarse), Ok((0, 24)));
    assert!(rt; source.place() == sink.entries().len());
    assert_eq!(rt; *reader.words(), *stage.words());
    assert!(rt; *reader.above() == *stage.above() && *reader.left() == *stage.left());
    assert!(rt; cells == map && reader.left()[0] == 30 && reader.above()[0] == 31);

    reader.reset_left_contexts();
    assert!(rt; reader.left()[0] == 0);
    Ok(())
}

/// Of the questions that are answered by no the first is told, where the memory is one of them.
#[test]
fn the_first_no_is_told(rt: HostRuntime) -> Result<(), Fail> {
    let mut map = [EMPTY; 4];
    let mut none: [Cell; 0] = [];
    assert!(rt; Stage::start(3, 2, 8, &mut none).err() == Some(Refusal::TileSize));
    assert!(rt; Stage::start(2, 2, 8, &mut none).err() == Some(Refusal::LastSegment));
    assert!(rt; Stage::start(2, 2, 7, &mut map[0..3]).err() == Some(Refusal::MapMemory));
    let Ok(mut stage) = Stage::start(2, 2, 7, &mut map) else {
        return Err(Fail::new("no start"));
    };
    let mut sink = WordRecord::new(rt.alloc(), 2)?;
    let mut small = [Window {
        first: 0,
        words: [0; 4],
    }];
    let mut spots = [Spot::Left { at: 0, was: 0 }; 4];
    let mut log = Log {
        small: &mut small,
        large: &mut [],
        spots: &mut spots,
    };
    let wide = BlockSize::BLOCK_128X128;
    let unmapped = stage.write_skip(&mut sink, &mut none, &mut log, ORIGIN, wide, true);
    assert_eq!(rt; unmapped, Err(Refusal::MapMemory));
    let unmapped = stage.write_segmentation(&mut sink, &mut none, &mut log, ORIGIN, wide, Some(9));
    assert_eq!(rt; unmapped, Err(Refusal::MapMemory));

    assert!(rt; sink.put(entry(0, 2, 32768, 16384)).is_ok());
    assert_eq!(rt; stage.open_at(&sink), Ok(1));
    let size = BlockSize::BLOCK_8X8;
    assert_eq!(rt;
        stage.write_skip(&mut sink, &mut map, &mut log, ORIGIN, size, true),
        Ok(1)
    );
    assert!(rt; sink.cut(0).is_ok());
    let short = Log {
        small: &mut [],
        large: &mut [],
        spots: &mut [],
    };
    let before = map;
    let words = *stage.words();
    let back = stage.take_back_at(&mut sink, &mut none, &short, 2);
    assert_eq!(rt; back, Err(Refusal::MapMemory));
    let back = stage.take_back_at(&mut sink, &mut map, &short, 2);
    assert_eq!(rt; back, Err(Refusal::LogRoom));
    let back = stage.take_back_at(&mut sink, &mut map, &log, 2);
    assert_eq!(rt; back, Err(Refusal::NotInnermost));
    let back = stage.take_back_at(&mut sink, &mut map, &log, 1);
    assert_eq!(rt; back, Err(Refusal::EntriesGone));
    assert!(rt; map == before && *stage.words() == words && sink.count() == 0);
    Ok(())
}
