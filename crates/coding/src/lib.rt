//! Codes a script of calls, and reads packed bytes by its questions: what is to be printed.
#![tactic(auto)]

ghost use Rattle.std.specs.Prelude.{◌≡◌};
ghost use Rattle.script.specs.Digests.{offset, steps};

pub mod read;

use crate::read::read_back;
pub use crate::read::read_file;
use av1::Cell;
use journal::{Log, Spot, Window};
use packed::{PackedRecord, pack};
use record::{Sink, WordRecord};
use replay::{Book, ReadBack, make_call};
use script::{Answered, Digest, Recorded, Script, SinkKind, StartRefused, State};
use stage::Stage;
use std::alloc::{AllocError, Global};
use std::fmt::Write;

/// A state as bytes: each word with its low byte first, the contexts, and the flag and segment of each cell.
pub fn state_bytes(heap: Global, stage: &Stage, cells: &[Cell]) -> Result<Vec<u8>, AllocError> {
    let mut bytes = Vec::new(heap);
    for word in stage.words() {
        bytes.extend_from_slice(&word.to_le_bytes())?;
    }
    bytes.extend_from_slice(stage.above())?;
    bytes.extend_from_slice(stage.left())?;
    for cell in cells {
        bytes.push(u8::from(cell.skip))?;
        bytes.push(cell.segment)?;
    }
    Ok(bytes)
}

/// The digest of a state's bytes.
pub fn digest(bytes: &[u8]) -> u64
    ensures { result ≡ steps offset bytes.now }
{
    let mut d = Digest::new();
    d.bytes(bytes);
    d.value()
}

/// The cells of a tile, or a few of them where the tile is larger than any.
pub(crate) fn empty_map(heap: Global, script: &Script) -> Result<Vec<Cell>, AllocError> {
    let units = script.columns.saturating_mul(script.rows).min(1_048_576);
    let empty = Cell {
        skip: false,
        segment: 0,
    };
    vec![in heap; empty; units]
}

/// The last active segment. A number that no segment can have is refused by the start.
pub(crate) fn last_segment(script: &Script) -> u8 {
    u8::try_from(script.last).unwrap_or(u8::MAX)
}

/// What a script's calls come to.
#[derive(Drop)]
pub struct Coding {
    /// What is to be printed.
    pub report: String,
    /// The record, packed.
    pub packed: Vec<u8>,
    /// The final state as bytes; none where the start is refused.
    pub state: Vec<u8>,
    /// The calls that stand; none where the start is refused, which the report tells then.
    pub book: Option<Book>,
}

/// Makes a script's calls over a sink, and puts a line for each into the report.
fn make_calls<S: Sink>(
    heap: Global,
    script: &Script,
    stage: &mut Stage,
    map: &mut [Cell],
    sink: &mut S,
    report: &mut String,
) -> anyhow::Result<Book> {
    let mut small = vec![in heap; Window {
        first: 0,
        words: [0; 4]
    }; script.log.small]?;
    let mut large = vec![in heap; Window {
        first: 0,
        words: [0; 16]
    }; script.log.large]?;
    let mut spots = vec![in heap; Spot::Left { at: 0, was: 0 }; script.log.spots]?;
    let mut log = Log {
        small: &mut small,
        large: &mut large,
        spots: &mut spots,
    };
    let mut book = Book::new(heap);
    for line in &script.lines {
        let call = line.written.call(stage.trials());
        let answer = make_call(stage, sink, map, &mut log, call);
        book.note(call, answer)?;
        writeln!(
            report,
            "{}",
            Answered {
                line: line.number,
                answer
            }
        )?;
    }
    Ok(book)
}

/// Makes a script's calls over a sink, and goes on with the report.
fn code_over<S: ReadBack>(
    heap: Global,
    script: &Script,
    mut stage: Stage,
    map: &mut [Cell],
    sink: &mut S,
    mut report: String,
) -> anyhow::Result<Coding> {
    let book = make_calls(heap, script, &mut stage, map, sink, &mut report)?;
    let packed = pack(heap, sink)?;
    writeln!(&mut report)?;
    writeln!(
        &mut report,
        "{}",
        Recorded {
            entries: sink.count(),
            bytes: packed.len()
        }
    )?;
    let state = state_bytes(heap, &stage, map)?;
    writeln!(&mut report, "{}", State(digest(&state)))?;
    let compared = read_back(heap, script, sink, book.standing())?;
    writeln!(&mut report, "{compared}")?;
    Ok(Coding {
        report,
        packed,
        state,
        book: Some(book),
    })
}

/// Codes a script.
pub fn code(heap: Global, script: &Script) -> anyhow::Result<Coding> {
    let mut report = String::new(heap);
    let mut map = empty_map(heap, script)?;
    let stage = match Stage::start(script.columns, script.rows, last_segment(script), &mut map) {
        Ok(stage) => stage,
        Err(e) => {
            writeln!(&mut report, "{}", StartRefused(e))?;
            return Ok(Coding {
                report,
                packed: Vec::new(heap),
                state: Vec::new(heap),
                book: None,
            });
        }
    };
    match script.sink {
        SinkKind::Word { places } => {
            let mut sink = WordRecord::new(heap, places)?;
            code_over(heap, script, stage, &mut map, &mut sink, report)
        }
        SinkKind::Packed { bytes } => {
            let mut sink = PackedRecord::new(heap, bytes)?;
            code_over(heap, script, stage, &mut map, &mut sink, report)
        }
    }
}

#[cfg(test)]
mod tests;
