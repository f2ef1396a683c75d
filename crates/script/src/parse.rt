ghost use Rattle.script.specs.Scripts.{Finishes, Parses};

use crate::fault::{Fault, ScriptError};
use crate::head::Head;
use crate::statement::SinkKind;
use crate::written::Written;
use journal::Counts;
use std::alloc::Global;

/// The sink where the script names none.
const SINK: SinkKind = SinkKind::Packed { bytes: 16_777_216 };

/// How many records the lanes have room for where the script does not say.
const LOG: Counts = Counts {
    small: 65_536,
    large: 4_096,
    spots: 1_048_576,
};

/// A call, and the number of its line, counted from 1.
#[derive(Clone, Copy)]
pub struct Line {
    pub number: usize,
    pub written: Written,
}

/// A script: the tile, the sink, the lanes' records, and the calls in order.
#[derive(Drop)]
pub struct Script {
    pub columns: usize,
    pub rows: usize,
    pub last: usize,
    pub sink: SinkKind,
    pub log: Counts,
    pub lines: Vec<Line>,
}

/// The script that the lines make, of which the last is the one before line `end`.
fn finish(heap: Global, head: Head, end: usize, calls: Vec<Line>) -> Result<Script, ScriptError>
    ensures { Finishes head end calls.items result }
{
    // Not `ok_or_else`: tried, and the proof does not close, as what its closure answers is out of reach there.
    let Some(tile) = head.tile else {
        return Err(ScriptError::at(heap, end, Fault::NoTile, "end of script"));
    };
    Ok(Script {
        columns: tile.columns,
        rows: tile.rows,
        last: tile.last,
        sink: head.sink.unwrap_or(SINK),
        log: head.log.unwrap_or(LOG),
        lines: calls,
    })
}

/// The script that a text writes, or its first fault.
pub fn parse(heap: Global, text: &str) -> Result<Script, ScriptError>
    ensures { Parses text.now result }
{
    let mut head = Head::new();
    let mut lines = Vec::new(heap);
    // The line behind those that were read: counted on the way, so that no text is gone through twice.
    let mut end = 1;
    for (i, line) in text.lines().enumerate() {
        let number = i + 1;
        end = number + 1;
        if let Some(written) = head.read_line(heap, number, line)? {
            lines.push(Line { number, written })?;
        }
    }
    finish(heap, head, end, lines)
}
