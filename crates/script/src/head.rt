ghost use Rattle.std.specs.Prelude.{◌≡◌, MatchResult};
ghost use Rattle.script.specs.Scripts.{start, settled, head_after, ReadsLine};

use crate::fault::{Fault, ScriptError};
use crate::statement::{SinkKind, Statement, TileLine};
use crate::words::Words;
use crate::written::Written;
use journal::Counts;
use std::alloc::Global;

/// What the lines so far have set.
#[derive(Clone, Copy)]
pub(crate) struct Head {
    pub(crate) tile: Option<TileLine>,
    pub(crate) sink: Option<SinkKind>,
    pub(crate) log: Option<Counts>,
    called: bool,
}

impl Head {
    pub(crate) fn new() -> Head
        ensures { result ≡ start }
    {
        Head {
            tile: None,
            sink: None,
            log: None,
            called: false,
        }
    }

    /// Takes a statement where it may stand; a call is handed on.
    fn take(&mut self, statement: Statement) -> Result<Option<Written>, Fault>
        ensures value { result ≡ settled self.old statement }
        ensures sets { MatchResult result (λ _. self.new ≡ head_after self.old statement) (λ _. self.new ≡ self.old) }
    {
        match statement {
            Statement::Blank => Ok(None),
            Statement::Tile(_) if self.tile.is_some() => Err(Fault::SecondTile),
            Statement::Tile(tile) => {
                self.tile = Some(tile);
                Ok(None)
            }
            Statement::Sink(_) | Statement::Log(_) | Statement::Call(_) if self.tile.is_none() => {
                Err(Fault::NoTile)
            }
            Statement::Sink(_) | Statement::Log(_) if self.called => Err(Fault::Late),
            Statement::Sink(_) if self.sink.is_some() => Err(Fault::SecondSink),
            Statement::Sink(sink) => {
                self.sink = Some(sink);
                Ok(None)
            }
            Statement::Log(_) if self.log.is_some() => Err(Fault::SecondLog),
            Statement::Log(log) => {
                self.log = Some(log);
                Ok(None)
            }
            Statement::Call(call) => {
                self.called = true;
                Ok(Some(call))
            }
        }
    }

    /// Reads a line: its call, if it has one.
    pub(crate) fn read_line(
        &mut self,
        heap: Global,
        number: usize,
        line: &str,
    ) -> Result<Option<Written>, ScriptError>
        ensures { ReadsLine self.old number line.now result self.new }
    {
        let mut words = Words::new(line);
        let read = words.statement();
        let last = words.last();
        let statement = read.map_err(|fault| ScriptError::at(heap, number, fault, last))?;
        self.take(statement).map_err(|fault| ScriptError::at(heap, number, fault, statement.word()))
    }
}
