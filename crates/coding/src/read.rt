use crate::{Coding, code, empty_map, last_segment};
use av1::{Call, Cell};
use model::Question;
use packed::PackedSource;
use replay::{ReadBack, ReadRun, ReplayError, Standing, read_calls};
use script::{Compared, Decided, Script, Stop, Stopped, SymbolPlace};
use stage::ReadError;
use std::alloc::{AllocError, Global};
use std::fmt::Write;

/// The questions of the standing calls, with memory for their answers and a map.
#[derive(Drop)]
struct Asking {
    questions: Vec<Question>,
    answers: Vec<Standing>,
    map: Vec<Cell>,
}

impl Asking {
    fn new(heap: Global, script: &Script, standing: &[Standing]) -> Result<Asking, AllocError> {
        let mut questions = Vec::with_capacity(heap, standing.len())?;
        for call in standing {
            questions.push(call.question())?;
        }
        let answers = vec![in heap; Standing {
            call: Call::RowStart,
            segment: 0
        }; standing.len()]?;
        let map = empty_map(heap, script)?;
        Ok(Asking {
            questions,
            answers,
            map,
        })
    }
}

/// Why a question is refused, as it is printed.
fn stop_of(why: ReadError) -> Stop {
    match why {
        ReadError::Refused(why) => Stop::Refused(why),
        ReadError::Fault(fault) => Stop::Symbol {
            why: fault.refusal(),
            at: SymbolPlace {
                entry: fault.entry(),
                table: fault.table(),
                place: fault.place(),
            },
        },
    }
}

/// How far a reader came with so many questions. One that was not started answered none.
fn stopped(run: &Result<ReadRun, ReplayError>, questions: usize) -> Stopped {
    let (read, stop) = match run {
        Ok(ReadRun { stop: None, .. }) => (questions, None),
        Ok(
            ReadRun {
                stop: Some((read, why)),
                ..
            },
        ) => (*read, Some(stop_of(*why))),
        Err(ReplayError::Start(why)) => (0, Some(Stop::Refused(*why))),
        Err(ReplayError::AnswerMemory) => (0, None),
    };
    Stopped {
        read,
        questions,
        stop,
    }
}

/// Reads a sink's record by the questions of the standing calls, and counts those that come back equal.
pub(crate) fn read_back<S: ReadBack>(
    heap: Global,
    script: &Script,
    sink: &S,
    standing: &[Standing],
) -> anyhow::Result<Compared> {
    let mut asking = Asking::new(heap, script, standing)?;
    let run = sink.read_back(
        script.columns,
        script.rows,
        last_segment(script),
        &mut asking.map,
        &asking.questions,
        &mut asking.answers,
    );
    let Stopped { read, .. } = stopped(&run, standing.len());
    let equal = standing
        .iter()
        .zip(asking.answers.iter())
        .take(read)
        .filter(|(call, answer)| call == answer)
        .count();
    Ok(Compared {
        equal,
        standing: standing.len(),
    })
}

/// Reads a source by the questions of the standing calls: a line for each decision that was read, and one for the end.
fn read_from(
    heap: Global,
    script: &Script,
    mut source: PackedSource<'_>,
    standing: &[Standing],
) -> anyhow::Result<String> {
    let mut asking = Asking::new(heap, script, standing)?;
    let run = read_calls(
        script.columns,
        script.rows,
        last_segment(script),
        &mut source,
        &mut asking.map,
        &asking.questions,
        &mut asking.answers,
    );
    let stopped = stopped(&run, standing.len());
    let mut text = String::new(heap);
    for Standing { call, segment } in asking.answers.iter().copied().take(stopped.read) {
        writeln!(&mut text, "{}", Decided { call, segment })?;
    }
    writeln!(&mut text, "{stopped}")?;
    Ok(text)
}

/// Reads packed bytes by the questions of a script's standing calls: what is to be printed.
pub fn read_file(heap: Global, script: &Script, bytes: &[u8]) -> anyhow::Result<String> {
    let Coding { report, book, .. } = code(heap, script)?;
    let Some(book) = book else {
        return Ok(report);
    };
    match PackedSource::new(bytes) {
        Ok(source) => read_from(heap, script, source, book.standing()),
        Err(why) => Ok(format!(in heap; "{}\n", Stop::Refused(why))?),
    }
}
