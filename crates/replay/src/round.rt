ghost use Rattle.std.specs.Prelude.{◌≡◌, ◌+◌, ◌*◌, ◌≤◌, ◌++◌, false, [], length, map, take, drop, is_ok, IfOk, vec_capacity, vec_items, vec_len};
ghost use Rattle.cdf.specs.Lists.{Each};
ghost use Rattle.model.specs.Decisions.{stage as subject};
ghost use Rattle.model.specs.Runs.{question_of};
ghost use Rattle.model.specs.Worked.{start};
ghost use Rattle.replay.specs.Books.{book, in_book, standing_calls, Room, Stands};
ghost use Rattle.replay.specs.Reads.{answered_first};
ghost use Rattle.replay.specs.Rounds.{round_asked, CameBack, MadeOf, RoundReads, StoppedBy, TookDown};
ghost use Rattle.replay.specs.Runs.{ran, started, standing, book_of, core_of, NoTraceOf, ToldApart, RefusedWhereAsked};
ghost use Rattle.replay.specs.declared.round.RoundError.TheVariants.{Memory, Replay};
ghost use Rattle.replay.specs.declared.write.ReplayError.TheVariants.{Start};
ghost use Rattle.stage.specs.Lanes.{SameMemory};
ghost use Rattle.stage.specs.View.{lanes, state_of, world};

use crate::book::{Book, Standing};
use crate::read::ReadRun;
use crate::read_back::ReadBack;
use crate::write::{ReplayError, write_calls};
use av1::{Answer, Call, Cell, Refusal};
use journal::Log;
use model::Question;
use stage::{Stage, ask_start};
use std::alloc::{AllocError, AllocFailed, Global};

/// Why a list of calls is not written and read back.
#[derive(Clone, Copy)]
pub enum RoundError {
    /// There is no memory for the standing calls and their questions.
    Memory,
    Replay(ReplayError),
}

impl From<AllocError> for RoundError {
    ghost from_gives = { λ _ r. r ≡ Memory };

    fn from(_e: AllocError) -> RoundError {
        RoundError::Memory
    }
}

impl<T: Drop> From<AllocFailed<T>> for RoundError {
    ghost from_gives = { λ _ r. r ≡ Memory };

    fn from(_e: AllocFailed<T>) -> RoundError {
        RoundError::Memory
    }
}

impl From<Refusal> for RoundError {
    ghost from_gives = { λ why r. r ≡ Replay (Start why) };

    fn from(why: Refusal) -> RoundError {
        RoundError::Replay(ReplayError::Start(why))
    }
}

// Takes down calls and what they answered, in a book that has room for them.
fn note_all(taken: &mut Book, calls: &[Call], answers: &[Result<Answer, Refusal>])
    requires room { Room (length calls.now) taken.old }
    requires answered { length calls.now ≤ length answers.now }
    ensures noted { book taken.new ≡ book_of (book taken.old) calls.now answers.now }
    ensures made { Each (MadeOf calls.now answers.now) (in_book taken.old) → Each (MadeOf calls.now answers.now) (in_book taken.new) }
{
    for (i, call) in calls.iter().enumerate() {
        let Ok(()) = taken.note(*call, answers[i]) else {
            unreachable!()
        };
    }
}

// Puts the questions of standing calls behind those that are there, where there is room for them.
fn ask_all(standing: &[Standing], questions: &mut Vec<Question>)
    requires { vec_len questions.old + length standing.now ≤ vec_capacity questions.old }
    ensures { questions.new.items ≡ questions.old.items ++ map (question_of subject) (standing_calls standing.now) }
{
    for call in standing {
        questions.push_reserved(call.question());
    }
}

/// A list of calls that was written, and its record as it was read back.
#[derive(Drop)]
pub struct Round {
    pub stage: Stage,
    /// The calls that stand.
    pub book: Book,
    pub run: ReadRun,
    /// The calls that were read, at its front.
    pub read: Vec<Standing>,
}

/// Makes a list of calls as `write_calls` does, and reads the record back by the questions of those that stand, over a map of
/// its own, as `read_calls` does. Where memory is wanting or a question of the start is answered by no, no call is made.
///
/// Over an empty sink: what is read are the decisions that stand, and the reader ends with the tables, contexts and cells of
/// the stage.
pub fn write_and_read<S: ReadBack>(
    heap: Global,
    columns: usize,
    rows: usize,
    last: u8,
    sink: &mut S,
    map: &mut [Cell],
    log: &mut Log<'_>,
    calls: &[Call],
    answers: &mut [Result<Answer, Refusal>],
    reader_map: &mut [Cell],
) -> Result<Round, RoundError>
    ensures asked { StoppedBy (round_asked columns rows last (length map.old) (length reader_map.old) (length calls.now) (length answers.old)) result }
    ensures world { IfOk result (λ r. world r.stage map.new (lanes log.new) (S.Sink.list sink.new) ≡ (ran (length map.old) (S.Sink.rooms sink.old) calls.now (started (start columns rows last) (lanes log.old) (S.Sink.list sink.old))).world) }
    ensures answers { IfOk result (λ r. answers.new ≡ (ran (length map.old) (S.Sink.rooms sink.old) calls.now (started (start columns rows last) (lanes log.old) (S.Sink.list sink.old))).answers ++ drop (length calls.now) answers.old) }
    ensures refused { IfOk result (λ r. RefusedWhereAsked (length map.old) (S.Sink.rooms sink.old) (started (start columns rows last) (lanes log.old) (S.Sink.list sink.old)) calls.now (take (length calls.now) answers.new)) }
    ensures trace { IfOk result (λ r. S.Sink.list sink.old ≡ [] → NoTraceOf (S.Sink.rooms sink.old) (start columns rows last) calls.now (take (length calls.now) answers.new) (core_of r.stage map.new (S.Sink.list sink.new))) }
    ensures apart { IfOk result (λ r. S.Sink.list sink.old ≡ [] → ToldApart (start columns rows last) calls.now (take (length calls.now) answers.new) (S.Sink.list sink.new)) }
    ensures book { IfOk result (λ r. TookDown calls.now (take (length calls.now) answers.new) r.book) }
    ensures reading { IfOk result (λ r. RoundReads (length reader_map.old) (start columns rows last) (standing calls.now (take (length calls.now) answers.new)) (S.Sink.list sink.new) r reader_map.new) }
    ensures stands { IfOk result (λ r. Each Stands (take (answered_first (length (in_book r.book)) r.run.stop) (vec_items r.read))) }
    ensures back { IfOk result (λ r. S.Sink.list sink.old ≡ [] → CameBack calls.now (take (length calls.now) answers.new) r (state_of r.stage map.new) reader_map.new) }
    ensures behind { (drop (columns * rows) map.new ≡ drop (columns * rows) map.old) × (drop (columns * rows) reader_map.new ≡ drop (columns * rows) reader_map.old) }
    ensures rooms { S.Sink.rooms sink.new ≡ S.Sink.rooms sink.old }
    ensures memory { SameMemory log.new log.old }
    ensures still { is_ok result ≡ false → (sink.new ≡ sink.old) × (map.new ≡ map.old) × (lanes log.new ≡ lanes log.old) × (answers.new ≡ answers.old) × (reader_map.new ≡ reader_map.old) }
{
    if answers.len() < calls.len() {
        return Err(RoundError::Replay(ReplayError::AnswerMemory));
    }
    ask_start(columns, rows, last, map.len())?;
    ask_start(columns, rows, last, reader_map.len())?;
    let mut taken = Book::with_capacity(heap, calls.len())?;
    let mut questions = Vec::with_capacity(heap, calls.len())?;
    let mut read = vec![in heap; Standing {
        call: Call::RowStart,
        segment: 0
    }; calls.len()]?;
    let Ok(stage) = write_calls(columns, rows, last, sink, map, log, calls, answers) else {
        unreachable!()
    };
    note_all(&mut taken, calls, answers);
    ask_all(taken.standing(), &mut questions);
    let Ok(run) = sink.read_back(columns, rows, last, reader_map, &questions, &mut read) else {
        unreachable!()
    };
    Ok(Round {
        stage,
        book: taken,
        run,
        read,
    })
}
