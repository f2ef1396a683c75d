use crate::call::make_call;
use crate::read_back::ReadBack;
use crate::round::write_and_read;
use av1::{Answer, BlockSize, Call, Cell, MvSubpelPrecision, Refusal, TileBlockOffset};
use journal::{Log, Spot, Window};
use packed::PackedRecord;
use record::{Sink, WordRecord};
use stage::Stage;
use std::process::Abort;
use std::test::Fail;

const EMPTY: Cell = Cell {
    skip: false,
    segment: 0,
};

const FLAG: Call = Call::Skip {
    bo: TileBlockOffset { x: 0, y: 0 },
    bsize: BlockSize::BLOCK_8X8,
    skip: true,
};

const VECTOR: Call = Call::Vector {
    row: 8,
    col: 0,
    precision: MvSubpelPrecision::MV_SUBPEL_HIGH_PRECISION,
};

const SMALL: Window<4> = Window {
    first: 0,
    words: [0; 4],
};

const LARGE: Window<16> = Window {
    first: 0,
    words: [0; 16],
};

const SPOT: Spot = Spot::Left { at: 0, was: 0 };

/// Lanes of the wrong length for taking back: each is one record short, and the last one is the right one.
const LENGTHS: [(usize, usize, usize); 4] = [(5, 1, 4), (6, 0, 4), (6, 1, 3), (6, 1, 4)];

#[test]
fn taking_back_asks_for_the_lanes_in_use(rt: HostRuntime) -> Result<(), Fail> {
    let mut map = [EMPTY; 4];
    let Ok(mut stage) = Stage::start(2, 2, 0, &mut map) else {
        return Err(Fail::new("no start"));
    };
    let mut sink = WordRecord::new(rt.alloc(), 9)?;
    let mut small = [SMALL; 6];
    let mut large = [LARGE; 1];
    let mut spots = [SPOT; 4];
    let before = *stage.words();
    for call in [Call::Open, FLAG, VECTOR] {
        let mut log = Log {
            small: &mut small,
            large: &mut large,
            spots: &mut spots,
        };
        assert!(rt; make_call(&mut stage, &mut sink, &mut map, &mut log, call).is_ok());
    }
    let after = *stage.words();
    for (smalls, larges, cells) in LENGTHS {
        assert_eq!(rt; *stage.words(), after);
        assert!(rt; map[0].skip && sink.count() == 7);
        let mut log = Log {
            small: &mut small[..smalls],
            large: &mut large[..larges],
            spots: &mut spots[..cells],
        };
        let back = Call::TakeBack { depth: 1 };
        let answer = make_call(&mut stage, &mut sink, &mut map, &mut log, back);
        if (smalls, larges, cells) == (6, 1, 4) {
            assert_eq!(rt; answer, Ok(Answer::Done));
        } else {
            assert_eq!(rt; answer, Err(Refusal::LogRoom));
        }
    }
    assert_eq!(rt; *stage.words(), before);
    assert!(rt; !map[0].skip && sink.count() == 0 && stage.trials() == 1);
    Ok(())
}

/// Three calls that stand, and a trial of which nothing does.
const ROUND: [Call; 7] = [
    FLAG,
    VECTOR,
    Call::Open,
    FLAG,
    Call::TakeBack { depth: 1 },
    Call::Keep { depth: 1 },
    Call::RowStart,
];

fn comes_back<S: ReadBack>(rt: &(impl Abort + AllocGlobal), sink: &mut S) -> Result<(), Fail> {
    let heap = rt.alloc();
    let mut map = [EMPTY; 4];
    let mut reader_map = [EMPTY; 5];
    let mut small = [SMALL; 1];
    let mut large = [LARGE; 0];
    let mut spots = [SPOT; 4];
    let mut log = Log {
        small: &mut small,
        large: &mut large,
        spots: &mut spots,
    };
    let mut answers = [Err(Refusal::Room); 7];
    let Ok(round) = write_and_read(
        heap,
        2,
        2,
        0,
        sink,
        &mut map,
        &mut log,
        &ROUND,
        &mut answers,
        &mut reader_map,
    ) else {
        return Err(Fail::new("no start"));
    };
    assert!(rt; round.run.stop.is_none() && sink.count() == 7);
    let standing = round.book.standing();
    assert!(rt; standing.len() == 3 && round.read.len() == 7);
    for (call, read) in standing.iter().zip(round.read.iter()) {
        assert!(rt; call == read);
    }
    assert!(rt; reader_map[0].skip && !reader_map[4].skip);
    assert_eq!(rt; *round.run.reader.words(), *round.stage.words());
    Ok(())
}

#[test]
fn what_is_written_comes_back(rt: HostRuntime) -> Result<(), Fail> {
    comes_back(&rt, &mut WordRecord::new(rt.alloc(), 8)?)?;
    comes_back(&rt, &mut PackedRecord::new(rt.alloc(), 80)?)
}
