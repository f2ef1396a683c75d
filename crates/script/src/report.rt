ghost use Rattle.std.specs.Prelude.{◌++◌, Some, codes, decimal};
ghost use Rattle.av1.specs.Refusals.{number};
ghost use Rattle.script.specs.Reports.{answer_text, block_text, call_text, place_text, stop_text, stopped_text};

use crate::name::Named;
use av1::{Answer, BlockSize, Call, Refusal, TileBlockOffset};
use std::fmt;

/// What the call of a line answered.
#[derive(Clone, Copy)]
pub struct Answered {
    pub line: usize,
    pub answer: Result<Answer, Refusal>,
}

impl fmt::Display for Answered {
    ghost output = { λ a. Some (decimal a.line ++ answer_text a.answer) };

    fn fmt<W: fmt::Write>(&self, f: &mut fmt::Formatter<W>) -> fmt::Result {
        let line = self.line;
        match self.answer {
            Ok(Answer::Done) => write!(f, "{line}: ok"),
            Ok(Answer::Wrote(number) | Answer::Opened(number)) => write!(f, "{line}: ok {number}"),
            Ok(Answer::Segmented { count, segment }) => write!(f, "{line}: ok {count} {segment}"),
            Err(refusal) => write!(f, "{line}: refused {}", refusal.number()),
        }
    }
}

/// The start was refused.
#[derive(Clone, Copy)]
pub struct StartRefused(pub Refusal);

impl fmt::Display for StartRefused {
    ghost output = { λ s. Some (codes "start refused " ++ decimal (number s.0)) };

    fn fmt<W: fmt::Write>(&self, f: &mut fmt::Formatter<W>) -> fmt::Result {
        write!(f, "start refused {}", self.0.number())
    }
}

/// How many entries were recorded, and how many bytes they are packed into.
#[derive(Clone, Copy)]
pub struct Recorded {
    pub entries: usize,
    pub bytes: usize,
}

impl fmt::Display for Recorded {
    ghost output = { λ s. Some (codes "record " ++ (decimal s.entries ++ (codes " entries, " ++ (decimal s.bytes ++ codes " bytes packed")))) };

    fn fmt<W: fmt::Write>(&self, f: &mut fmt::Formatter<W>) -> fmt::Result {
        write!(
            f,
            "record {} entries, {} bytes packed",
            self.entries, self.bytes
        )
    }
}

/// How many of the standing calls a reader of the record gave back equal.
#[derive(Clone, Copy)]
pub struct Compared {
    pub equal: usize,
    pub standing: usize,
}

impl fmt::Display for Compared {
    ghost output = { λ s. Some (codes "read back " ++ (decimal s.equal ++ (codes " of " ++ (decimal s.standing ++ codes " standing calls equal")))) };

    fn fmt<W: fmt::Write>(&self, f: &mut fmt::Formatter<W>) -> fmt::Result {
        write!(
            f,
            "read back {} of {} standing calls equal",
            self.equal, self.standing
        )
    }
}

/// The digest of the final state, in 16 hexadecimal digits.
#[derive(Clone, Copy)]
pub struct State(pub u64);

impl fmt::Display for State {
    fn fmt<W: fmt::Write>(&self, f: &mut fmt::Formatter<W>) -> fmt::Result {
        write!(f, "state {:016x}", self.0)
    }
}

/// Where a block lies, and its size.
#[derive(Clone, Copy)]
struct Block {
    bo: TileBlockOffset,
    bsize: BlockSize,
}

impl fmt::Display for Block {
    ghost output = { λ b. Some (block_text b.bo b.bsize) };

    fn fmt<W: fmt::Write>(&self, f: &mut fmt::Formatter<W>) -> fmt::Result {
        let size = self.bsize.name();
        write!(f, "{} {} {size}", self.bo.x, self.bo.y)
    }
}

/// A call with its decision, as a line of a script. `segment` is what a segment answered: of a skipped one, whose line has
/// no number, the prediction, which stands in a comment.
#[derive(Clone, Copy)]
pub struct Decided {
    pub call: Call,
    pub segment: usize,
}

impl fmt::Display for Decided {
    ghost output = { λ d. Some (call_text d.call d.segment) };

    fn fmt<W: fmt::Write>(&self, f: &mut fmt::Formatter<W>) -> fmt::Result {
        match self.call {
            Call::Partition {
                bo,
                bsize,
                partition,
            } => write!(f, "partition {} {}", Block { bo, bsize }, partition.name()),
            Call::Skip { bo, bsize, skip } => {
                write!(f, "skip {} {}", Block { bo, bsize }, skip.name())
            }
            Call::Segment {
                bo,
                bsize,
                segment: Some(id),
            } => write!(f, "segment {} {id}", Block { bo, bsize }),
            Call::Segment {
                bo,
                bsize,
                segment: None,
            } => write!(
                f,
                "segment {} skipped # {}",
                Block { bo, bsize },
                self.segment
            ),
            Call::Alphas { u, v } => write!(f, "alphas {u} {v}"),
            Call::Vector {
                row,
                col,
                precision,
            } => write!(f, "vector {row} {col} {}", precision.name()),
            Call::ContextUpdate { bo, bsize, subsize } => {
                write!(f, "context {} {}", Block { bo, bsize }, subsize.name())
            }
            Call::RowStart => write!(f, "row"),
            Call::Open => write!(f, "open"),
            Call::TakeBack { depth } => write!(f, "back {depth}"),
            Call::Keep { depth } => write!(f, "keep {depth}"),
        }
    }
}

/// Where a symbol is read: the number of its entry in its decision, the first word of its table, its place in the source.
#[derive(Clone, Copy)]
pub struct SymbolPlace {
    pub entry: usize,
    pub table: usize,
    pub place: usize,
}

impl fmt::Display for SymbolPlace {
    ghost output = { λ s. Some (place_text s) };

    fn fmt<W: fmt::Write>(&self, f: &mut fmt::Formatter<W>) -> fmt::Result {
        write!(
            f,
            "entry {} of the decision, table {}, place {}",
            self.entry, self.table, self.place
        )
    }
}

/// Why reading stops: a question is answered by no, or a symbol is refused.
#[derive(Clone, Copy)]
pub enum Stop {
    Refused(Refusal),
    Symbol { why: Refusal, at: SymbolPlace },
}

impl fmt::Display for Stop {
    ghost output = { λ s. Some (stop_text s) };

    fn fmt<W: fmt::Write>(&self, f: &mut fmt::Formatter<W>) -> fmt::Result {
        match self {
            Stop::Refused(why @ Refusal::NotPacked { byte }) => {
                write!(f, "refused {}, byte {byte}", why.number())
            }
            Stop::Refused(why) => write!(f, "refused {}", why.number()),
            Stop::Symbol { why, at } => write!(f, "refused {}, {at}", why.number()),
        }
    }
}

/// How many of a list of questions were answered, and why the next one was refused.
#[derive(Clone, Copy)]
pub struct Stopped {
    pub read: usize,
    pub questions: usize,
    pub stop: Option<Stop>,
}

impl fmt::Display for Stopped {
    ghost output = { λ s. Some (codes "read " ++ (decimal s.read ++ (codes " of " ++ (decimal s.questions ++ stopped_text s.stop)))) };

    fn fmt<W: fmt::Write>(&self, f: &mut fmt::Formatter<W>) -> fmt::Result {
        let Stopped {
            read,
            questions,
            ..
        } = self;
        match self.stop {
            Some(stop) => write!(f, "read {read} of {questions}: {stop}"),
            None => write!(f, "read {read} of {questions}"),
        }
    }
}
