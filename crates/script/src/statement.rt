ghost use Rattle.std.specs.Prelude.{◌≡◌, drop, OnOk};
ghost use Rattle.script.specs.Names.{statement_name};
ghost use Rattle.script.specs.Splits.{unread};
ghost use Rattle.script.specs.Statements.{tile_at, sink_at, log_at, offset_at, depth_at, written_at, call_at, partition_at, skip_at, segment_at, alphas_at, vector_at, context_at, take_back_at, keep_at, statement_of};

use crate::fault::Fault;
use crate::word::Word;
use crate::words::Words;
use crate::written::Written;
use av1::{Call, TileBlockOffset};
use journal::Counts;

/// The line of the tile.
#[derive(Clone, Copy)]
pub(crate) struct TileLine {
    pub(crate) columns: usize,
    pub(crate) rows: usize,
    pub(crate) last: usize,
}

/// The sink of a script, and how large it is.
#[derive(Clone, Copy, PartialEq, Debug)]
pub enum SinkKind {
    Word { places: usize },
    Packed { bytes: usize },
}

/// What a line says.
#[derive(Clone, Copy)]
pub(crate) enum Statement {
    Blank,
    Tile(TileLine),
    Sink(SinkKind),
    /// How many records each lane has room for.
    Log(Counts),
    Call(Written),
}

impl Statement {
    /// The word that the line begins with.
    pub(crate) fn word(self) -> &'static str
        ensures { result.now ≡ statement_name self }
    {
        match self {
            Statement::Blank => "",
            Statement::Tile(_) => "tile",
            Statement::Sink(_) => "sink",
            Statement::Log(_) => "log",
            Statement::Call(call) => call.word(),
        }
    }
}

impl<'a> Words<'a> {
    /// X Y
    fn offset(&mut self) -> Result<TileBlockOffset, Fault>
        ensures value { result ≡ offset_at (unread self.old.rest) }
        ensures after { OnOk result (unread self.new.rest ≡ drop 1 (drop 1 (unread self.old.rest))) }
    {
        let x = self.read()?;
        let y = self.read()?;
        Ok(TileBlockOffset { x, y })
    }

    /// [DEPTH]
    fn depth(&mut self) -> Result<Option<usize>, Fault>
        ensures value { result ≡ depth_at (unread self.old.rest) }
        ensures after { OnOk result (unread self.new.rest ≡ drop 1 (unread self.old.rest)) }
    {
        match self.next_word() {
            Some(word) => usize::read(word).map(Some),
            None => Ok(None),
        }
    }

    /// A call, where the line ends here.
    fn written(&mut self, call: Written) -> Result<Statement, Fault>
        ensures { result ≡ written_at call (unread self.old.rest) }
    {
        self.end()?;
        Ok(Statement::Call(call))
    }

    /// The same of a call that is whole.
    fn call(&mut self, call: Call) -> Result<Statement, Fault>
        ensures { result ≡ call_at call (unread self.old.rest) }
    {
        self.written(Written::Call(call))
    }

    /// COLUMNS ROWS LAST
    fn tile(&mut self) -> Result<Statement, Fault>
        ensures { result ≡ tile_at (unread self.old.rest) }
    {
        let columns = self.read()?;
        let rows = self.read()?;
        let last = self.read()?;
        self.end()?;
        Ok(Statement::Tile(TileLine {
            columns,
            rows,
            last,
        }))
    }

    /// word PLACES, or packed BYTES
    fn sink(&mut self) -> Result<Statement, Fault>
        ensures { result ≡ sink_at (unread self.old.rest) }
    {
        match self.next_word().ok_or(Fault::MissingWord)? {
            "word" => {
                let places = self.read()?;
                self.end()?;
                Ok(Statement::Sink(SinkKind::Word { places }))
            }
            "packed" => {
                let bytes = self.read()?;
                self.end()?;
                Ok(Statement::Sink(SinkKind::Packed { bytes }))
            }
            _ => Err(Fault::UnknownSink),
        }
    }

    /// SMALL LARGE SPOTS
    fn log(&mut self) -> Result<Statement, Fault>
        ensures { result ≡ log_at (unread self.old.rest) }
    {
        let small = self.read()?;
        let large = self.read()?;
        let spots = self.read()?;
        self.end()?;
        Ok(Statement::Log(Counts {
            small,
            large,
            spots,
        }))
    }

    /// X Y SIZE PARTITION
    fn partition(&mut self) -> Result<Statement, Fault>
        ensures { result ≡ partition_at (unread self.old.rest) }
    {
        let bo = self.offset()?;
        let bsize = self.read()?;
        let partition = self.read()?;
        self.call(Call::Partition {
            bo,
            bsize,
            partition,
        })
    }

    /// X Y SIZE SKIP
    fn skip(&mut self) -> Result<Statement, Fault>
        ensures { result ≡ skip_at (unread self.old.rest) }
    {
        let bo = self.offset()?;
        let bsize = self.read()?;
        let skip = self.read()?;
        self.call(Call::Skip { bo, bsize, skip })
    }

    /// X Y SIZE SEGMENT, or `skipped` for the segment
    fn segment(&mut self) -> Result<Statement, Fault>
        ensures { result ≡ segment_at (unread self.old.rest) }
    {
        let bo = self.offset()?;
        let bsize = self.read()?;
        let segment = self.read()?;
        self.call(Call::Segment { bo, bsize, segment })
    }

    /// U V
    fn alphas(&mut self) -> Result<Statement, Fault>
        ensures { result ≡ alphas_at (unread self.old.rest) }
    {
        let u = self.read()?;
        let v = self.read()?;
        self.call(Call::Alphas { u, v })
    }

    /// ROW COL PRECISION
    fn vector(&mut self) -> Result<Statement, Fault>
        ensures { result ≡ vector_at (unread self.old.rest) }
    {
        let row = self.read()?;
        let col = self.read()?;
        let precision = self.read()?;
        self.call(Call::Vector {
            row,
            col,
            precision,
        })
    }

    /// X Y SIZE SUBSIZE
    fn context(&mut self) -> Result<Statement, Fault>
        ensures { result ≡ context_at (unread self.old.rest) }
    {
        let bo = self.offset()?;
        let bsize = self.read()?;
        let subsize = self.read()?;
        self.call(Call::ContextUpdate { bo, bsize, subsize })
    }

    /// [DEPTH]
    fn take_back(&mut self) -> Result<Statement, Fault>
        ensures { result ≡ take_back_at (unread self.old.rest) }
    {
        match self.depth()? {
            Some(depth) => self.call(Call::TakeBack { depth }),
            None => self.written(Written::TakeBackInnermost),
        }
    }

    /// [DEPTH]
    fn keep(&mut self) -> Result<Statement, Fault>
        ensures { result ≡ keep_at (unread self.old.rest) }
    {
        match self.depth()? {
            Some(depth) => self.call(Call::Keep { depth }),
            None => self.written(Written::KeepInnermost),
        }
    }

    /// What the line says.
    pub(crate) fn statement(&mut self) -> Result<Statement, Fault>
        ensures { result ≡ statement_of (unread self.old.rest) }
    {
        let Some(word) = self.next_word() else {
            return Ok(Statement::Blank);
        };
        match word {
            "tile" => self.tile(),
            "sink" => self.sink(),
            "log" => self.log(),
            "partition" => self.partition(),
            "skip" => self.skip(),
            "segment" => self.segment(),
            "alphas" => self.alphas(),
            "vector" => self.vector(),
            "context" => self.context(),
            "row" => self.call(Call::RowStart),
            "open" => self.call(Call::Open),
            "back" => self.take_back(),
            "keep" => self.keep(),
            _ => Err(Fault::UnknownWord),
        }
    }
}
