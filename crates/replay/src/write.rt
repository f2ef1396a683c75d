ghost use Rattle.std.specs.Prelude.{◌≡◌, ◌*◌, ◌≤◌, false, List, [], ◌++◌, length, take, drop, is_ok, IfOk};
ghost use Rattle.model.specs.Worked.{start};
ghost use Rattle.replay.specs.declared.write.ReplayError.TheVariants.{Start};
ghost use Rattle.replay.specs.Runs.{ran, started, stopped_by, write_asked, core_of, NoTraceOf, Outcome, ToldApart, RefusedWhereAsked};
ghost use Rattle.stage.specs.Lanes.{SameMemory};
ghost use Rattle.stage.specs.View.{lanes, units_of, world};

use crate::call::make_call;
use av1::{Answer, Call, Cell, Refusal};
use journal::Log;
use record::Sink;
use stage::Stage;

/// Why no call of a list is made.
#[derive(Clone, Copy)]
pub enum ReplayError {
    /// The memory for the answers has fewer places than there are calls.
    AnswerMemory,
    /// The start is refused.
    Start(Refusal),
}

impl From<Refusal> for ReplayError {
    ghost from_gives = { λ why r. r ≡ Start why };

    fn from(why: Refusal) -> ReplayError {
        ReplayError::Start(why)
    }
}

// Makes the calls one after the other, and puts the answers to the front of the memory for them.
fn make_calls<S: Sink>(
    stage: &mut Stage,
    sink: &mut S,
    map: &mut [Cell],
    log: &mut Log<'_>,
    calls: &[Call],
    answers: &mut [Result<Answer, Refusal>],
)
    requires { length calls.now ≤ length answers.old }
    ensures world { world stage.new map.new (lanes log.new) (S.Sink.list sink.new) ≡ (ran (length map.old) (S.Sink.rooms sink.old) calls.now (world stage.old map.old (lanes log.old) (S.Sink.list sink.old))).world }
    ensures answers { answers.new ≡ (ran (length map.old) (S.Sink.rooms sink.old) calls.now (world stage.old map.old (lanes log.old) (S.Sink.list sink.old))).answers ++ drop (length calls.now) answers.old }
    ensures behind { drop (units_of stage.old) map.new ≡ drop (units_of stage.old) map.old }
    ensures rooms { S.Sink.rooms sink.new ≡ S.Sink.rooms sink.old }
    ensures memory { SameMemory log.new log.old }
{
    // Not `answers.iter_mut().zip(calls)`: tried, and the proof does not close, as it learns no value that is written so.
    for (i, call) in calls.iter().enumerate() {
        answers[i] = make_call(stage, sink, map, log, *call);
    }
}

/// Starts a tile of `columns` × `rows` units, of which `last` is the last active segment, and makes the calls one after the
/// other, those that are refused too. The answers go to the front of the memory for them. Answers the stage.
///
/// Over an empty sink: what was taken back leaves no trace, and calls that stand for other decisions leave another record.
pub fn write_calls<S: Sink>(
    columns: usize,
    rows: usize,
    last: u8,
    sink: &mut S,
    map: &mut [Cell],
    log: &mut Log<'_>,
    calls: &[Call],
    answers: &mut [Result<Answer, Refusal>],
) -> Result<Stage, ReplayError>
    ensures asked { stopped_by result ≡ write_asked columns rows last (length map.old) (length calls.now) (length answers.old) }
    ensures world { IfOk result (λ s. world s map.new (lanes log.new) (S.Sink.list sink.new) ≡ (ran (length map.old) (S.Sink.rooms sink.old) calls.now (started (start columns rows last) (lanes log.old) (S.Sink.list sink.old))).world) }
    ensures answers { IfOk result (λ s. answers.new ≡ (ran (length map.old) (S.Sink.rooms sink.old) calls.now (started (start columns rows last) (lanes log.old) (S.Sink.list sink.old))).answers ++ drop (length calls.now) answers.old) }
    ensures refused { IfOk result (λ s. RefusedWhereAsked (length map.old) (S.Sink.rooms sink.old) (started (start columns rows last) (lanes log.old) (S.Sink.list sink.old)) calls.now (take (length calls.now) answers.new)) }
    ensures trace { IfOk result (λ s. S.Sink.list sink.old ≡ [] → NoTraceOf (S.Sink.rooms sink.old) (start columns rows last) calls.now (take (length calls.now) answers.new) (core_of s map.new (S.Sink.list sink.new))) }
    ensures outcome { IfOk result (λ s. S.Sink.list sink.old ≡ [] → Outcome (start columns rows last) calls.now (take (length calls.now) answers.new) (S.Sink.list sink.new)) }
    ensures apart { IfOk result (λ s. S.Sink.list sink.old ≡ [] → ToldApart (start columns rows last) calls.now (take (length calls.now) answers.new) (S.Sink.list sink.new)) }
    ensures behind { drop (columns * rows) map.new ≡ drop (columns * rows) map.old }
    ensures rooms { S.Sink.rooms sink.new ≡ S.Sink.rooms sink.old }
    ensures memory { SameMemory log.new log.old }
    ensures still { is_ok result ≡ false → (sink.new ≡ sink.old) × (map.new ≡ map.old) × (lanes log.new ≡ lanes log.old) × (answers.new ≡ answers.old) }
{
    if answers.len() < calls.len() {
        return Err(ReplayError::AnswerMemory);
    }
    let mut stage = Stage::start(columns, rows, last, map)?;
    make_calls(&mut stage, sink, map, log, calls, answers);
    Ok(stage)
}
