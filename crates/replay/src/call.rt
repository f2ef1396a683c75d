ghost use Rattle.std.specs.Prelude.{◌≡◌, false, List, length, drop, is_ok};
ghost use Rattle.replay.specs.Calls.{call_step};
ghost use Rattle.stage.specs.Lanes.{SameMemory};
ghost use Rattle.stage.specs.View.{lanes, units_of, world};

use av1::{Answer, Call, Cell, Refusal};
use journal::Log;
use record::Sink;
use stage::Stage;

/// Makes a call: what it answers, or why it is refused.
pub fn make_call<S: Sink>(
    stage: &mut Stage,
    sink: &mut S,
    map: &mut [Cell],
    log: &mut Log<'_>,
    call: Call,
) -> Result<Answer, Refusal>
    ensures step { (result, world stage.new map.new (lanes log.new) (S.Sink.list sink.new)) ≡ call_step (length map.old) (S.Sink.rooms sink.old) call (world stage.old map.old (lanes log.old) (S.Sink.list sink.old)) }
    ensures behind { drop (units_of stage.old) map.new ≡ drop (units_of stage.old) map.old }
    ensures rooms { S.Sink.rooms sink.new ≡ S.Sink.rooms sink.old }
    ensures still { is_ok result ≡ false → (stage.new ≡ stage.old) × (sink.new ≡ sink.old) × (map.new ≡ map.old) }
    ensures memory { SameMemory log.new log.old }
{
    match call {
        Call::Partition {
            bo,
            bsize,
            partition,
        } => stage
            .write_partition(sink, log, bo, bsize, partition)
            .map(Answer::Wrote),
        Call::Skip { bo, bsize, skip } => stage
            .write_skip(sink, map, log, bo, bsize, skip)
            .map(Answer::Wrote),
        Call::Segment { bo, bsize, segment } => stage
            .write_segmentation(sink, map, log, bo, bsize, segment)
            .map(|(count, segment)| Answer::Segmented { count, segment }),
        Call::Alphas { u, v } => stage.write_cfl_alphas(sink, log, u, v).map(Answer::Wrote),
        Call::Vector {
            row,
            col,
            precision,
        } => stage
            .write_mv(sink, log, row, col, precision)
            .map(Answer::Wrote),
        Call::ContextUpdate { bo, bsize, subsize } => stage
            .update_partition_context(log, bo, subsize, bsize)
            .map(|()| Answer::Done),
        Call::RowStart => stage.reset_left_contexts().map(|()| Answer::Done),
        Call::Open => stage.open_at(sink).map(Answer::Opened),
        Call::TakeBack { depth } => stage
            .take_back_at(sink, map, log, depth)
            .map(|()| Answer::Done),
        Call::Keep { depth } => stage.keep_at(depth).map(|()| Answer::Done),
    }
}
