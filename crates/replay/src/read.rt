ghost use Rattle.std.specs.Prelude.{◌≡◌, ◌*◌, ◌≤◌, false, length, take, drop, is_ok, IfOk};
ghost use Rattle.cdf.specs.Lists.{Each};
ghost use Rattle.model.specs.Decisions.{stage as subject};
ghost use Rattle.model.specs.Runs.{reads};
ghost use Rattle.model.specs.Worked.{start};
ghost use Rattle.replay.specs.Books.{Stands};
ghost use Rattle.replay.specs.Reads.{call_read, call_seen, reading_of, answered_first, state_read, units_read, stood_of, ReadsBackTo};
ghost use Rattle.replay.specs.Runs.{stopped_by, write_asked};

use crate::book::Standing;
use crate::write::ReplayError;
use av1::{Call, Cell, TileBlockOffset};
use model::Question;
use record::Source;
use stage::{ReadError, Reader};

impl Standing {
    /// The question that the call answers.
    pub fn question(self) -> Question
        ensures { result ≡ (stood_of self).question }
    {
        match self.call {
            Call::Partition { bo, bsize, .. } => Question::Partition {
                x: bo.x,
                y: bo.y,
                bsize,
            },
            Call::Skip { bo, bsize, .. } => Question::Skip {
                x: bo.x,
                y: bo.y,
                bsize,
            },
            Call::Segment { bo, bsize, segment } => Question::Segment {
                x: bo.x,
                y: bo.y,
                bsize,
                skip: segment.is_none(),
            },
            Call::Alphas { .. } => Question::Alphas,
            Call::Vector { precision, .. } => Question::Vector { precision },
            Call::ContextUpdate { bo, bsize, subsize } => Question::ContextUpdate {
                x: bo.x,
                y: bo.y,
                bsize,
                subsize,
            },
            Call::RowStart | Call::Open | Call::TakeBack { .. } | Call::Keep { .. } => {
                Question::RowStart
            }
        }
    }
}

/// Puts a question to a reader: the call that answers it, with the decision that was read.
pub fn read_call<Q: Source>(
    reader: &mut Reader,
    source: &mut Q,
    map: &mut [Cell],
    question: Question,
) -> Result<Standing, ReadError>
    ensures step { (call_seen result, state_read reader.new map.new, Q.Source.place source.new) ≡ call_read (length map.old) (Q.Source.list source.old) question (state_read reader.old map.old) (Q.Source.place source.old) }
    ensures stands { IfOk result (λ s. Stands s) }
    ensures behind { drop (units_read reader.old) map.new ≡ drop (units_read reader.old) map.old }
    ensures list { Q.Source.list source.new ≡ Q.Source.list source.old }
    ensures still { is_ok result ≡ false → (reader.new ≡ reader.old) × (map.new ≡ map.old) }
{
    match question {
        Question::Partition { x, y, bsize } => {
            let bo = TileBlockOffset { x, y };
            reader
                .read_partition(source, bo, bsize)
                .map(|partition| Standing {
                    call: Call::Partition {
                        bo,
                        bsize,
                        partition,
                    },
                    segment: 0,
                })
        }
        Question::Skip { x, y, bsize } => {
            let bo = TileBlockOffset { x, y };
            reader
                .read_skip(source, map, bo, bsize)
                .map(|skip| Standing {
                    call: Call::Skip { bo, bsize, skip },
                    segment: 0,
                })
        }
        Question::Segment { x, y, bsize, skip } => {
            let bo = TileBlockOffset { x, y };
            reader
                .read_segmentation(source, map, bo, bsize, skip)
                .map(|segment| Standing {
                    call: Call::Segment {
                        bo,
                        bsize,
                        segment: if skip { None } else { Some(segment) },
                    },
                    segment,
                })
        }
        Question::Alphas => reader.read_cfl_alphas(source).map(|(u, v)| Standing {
            call: Call::Alphas { u, v },
            segment: 0,
        }),
        Question::Vector { precision } => {
            reader.read_mv(source, precision).map(|(row, col)| Standing {
                call: Call::Vector {
                    row,
                    col,
                    precision,
                },
                segment: 0,
            })
        }
        Question::ContextUpdate {
            x,
            y,
            bsize,
            subsize,
        } => {
            let bo = TileBlockOffset { x, y };
            reader.update_partition_context(bo, subsize, bsize)?;
            Ok(Standing {
                call: Call::ContextUpdate { bo, bsize, subsize },
                segment: 0,
            })
        }
        Question::RowStart => {
            reader.reset_left_contexts();
            Ok(Standing {
                call: Call::RowStart,
                segment: 0,
            })
        }
    }
}

// Reads the answers to questions one after the other, up to the first that is refused, and puts them to the front of the
// memory for them. Answers which question that is, and why.
fn read_each<Q: Source>(
    reader: &mut Reader,
    source: &mut Q,
    map: &mut [Cell],
    questions: &[Question],
    answers: &mut [Standing],
) -> Option<(usize, ReadError)>
    requires { length questions.now ≤ length answers.old }
    ensures reading { reading_of (length questions.now) result answers.new (state_read reader.new map.new) (Q.Source.list source.new) (Q.Source.place source.new) ≡ reads subject (length map.old) (state_read reader.old map.old) questions.now (drop (Q.Source.place source.old) (Q.Source.list source.old)) (Q.Source.place source.old) }
    ensures stands { Each Stands (take (answered_first (length questions.now) result) answers.new) }
    ensures list { Q.Source.list source.new ≡ Q.Source.list source.old }
    ensures behind { drop (units_read reader.old) map.new ≡ drop (units_read reader.old) map.old }
    ensures rest { drop (answered_first (length questions.now) result) answers.new ≡ drop (answered_first (length questions.now) result) answers.old }
{
    for (i, question) in questions.iter().enumerate() {
        match read_call(reader, source, map, *question) {
            Ok(answer) => answers[i] = answer,
            Err(why) => return Some((i, why)),
        }
    }
    None
}

/// A reader that was put a list of questions, and the number of the first one that was refused, with the reason.
#[derive(Drop)]
pub struct ReadRun {
    pub reader: Reader,
    pub stop: Option<(usize, ReadError)>,
}

/// Starts a reader of a tile of `columns` × `rows` units, of which `last` is the last active segment, and puts it the
/// questions one after the other, up to the first that is refused. The answers go to the front of the memory for them.
///
/// Where the source has the record of a list of calls from the same start, at its first entry, and the questions are those of
/// its standing calls, the answers are the standing decisions, and tables, contexts and cells are what the calls left.
pub fn read_calls<Q: Source>(
    columns: usize,
    rows: usize,
    last: u8,
    source: &mut Q,
    map: &mut [Cell],
    questions: &[Question],
    answers: &mut [Standing],
) -> Result<ReadRun, ReplayError>
    ensures asked { stopped_by result ≡ write_asked columns rows last (length map.old) (length questions.now) (length answers.old) }
    ensures reading { IfOk result (λ r. reading_of (length questions.now) r.stop answers.new (state_read r.reader map.new) (Q.Source.list source.new) (Q.Source.place source.new) ≡ reads subject (length map.old) (start columns rows last) questions.now (drop (Q.Source.place source.old) (Q.Source.list source.old)) (Q.Source.place source.old)) }
    ensures back { IfOk result (λ r. Q.Source.place source.old ≡ 0 → ReadsBackTo (start columns rows last) (Q.Source.list source.old) questions.now r.stop answers.new (state_read r.reader map.new) (Q.Source.place source.new)) }
    ensures stands { IfOk result (λ r. Each Stands (take (answered_first (length questions.now) r.stop) answers.new)) }
    ensures list { Q.Source.list source.new ≡ Q.Source.list source.old }
    ensures behind { drop (columns * rows) map.new ≡ drop (columns * rows) map.old }
    ensures rest { IfOk result (λ r. drop (answered_first (length questions.now) r.stop) answers.new ≡ drop (answered_first (length questions.now) r.stop) answers.old) }
    ensures still { is_ok result ≡ false → (source.new ≡ source.old) × (map.new ≡ map.old) × (answers.new ≡ answers.old) }
{
    if answers.len() < questions.len() {
        return Err(ReplayError::AnswerMemory);
    }
    let mut reader = Reader::start(columns, rows, last, map)?;
    let stop = read_each(&mut reader, source, map, questions, answers);
    Ok(ReadRun { reader, stop })
}
