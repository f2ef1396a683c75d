ghost use Rattle.std.specs.Prelude.{◌≡◌, ◌<◌, ◌≤◌, false, List, length, drop, is_ok, is_none, IfOk, IfErr, IfSome, OnOk, OnSome};
ghost use Rattle.std.specs.Option.{unwrap_or};
ghost use Rattle.av1.specs.declared.refusal.Refusal.TheVariants as no;
ghost use Rattle.av1.specs.declared.tile.Cell.{Cell};
ghost use Rattle.model.specs.Calls.{segment_step, symbol_steps};
ghost use Rattle.model.specs.Decisions.{segment_tree, segment_path, segment_decided};
ghost use Rattle.stage.specs.Cells.{SegmentSet};
ghost use Rattle.stage.specs.Lanes.{SameMemory};
ghost use Rattle.stage.specs.View.{lanes, open_trials, units_of, world};

use crate::state::cells::Change;
use crate::state::{Stage, Table};
use av1::{BlockSize, Cell, Refusal, TileBlockOffset, neg_interleave};
use journal::{Counts, Log};
use record::Sink;

impl Stage {
    // Whether the segment is an active one, where a block carries one.
    fn ask_active(&self, segment: Option<usize>) -> Result<(), Refusal>
        ensures active { OnOk result (is_none segment ≡ false → unwrap_or segment 0 ≤ self.now.last) }
        ensures inactive { IfErr result (λ why. (why ≡ no.Segment) × (is_none segment ≡ false) × (self.now.last < unwrap_or segment 0)) }
    {
        match segment {
            Some(id) if id > self.last as usize => Err(Refusal::Segment),
            _ => Ok(()),
        }
    }

    // Codes a segment near its prediction, and answers it. That of a skipped block is the prediction, and has no symbol.
    fn code_segment<S: Sink>(
        &mut self,
        sink: &mut S,
        log: &mut Log<'_>,
        number: usize,
        prediction: u8,
        segment: Option<usize>,
    ) -> u8
        requires number { number ≤ 2 }
        requires prediction { prediction ≤ self.old.last }
        requires segment { IfSome segment (λ id. id ≤ self.old.last) }
        requires room { OnSome segment (0 < S.Sink.rooms sink.old (S.Sink.list sink.old)) }
        requires large { OnSome segment (0 < open_trials self.old.journal → self.old.journal.used.large < length log.old.large.now) }
        ensures segment { result ≡ segment_decided (is_none segment) prediction (unwrap_or segment 0) }
        ensures step { (memory : List Cell) → world self.new memory (lanes log.new) (S.Sink.list sink.new) ≡ symbol_steps (segment_tree (is_none segment) number self.old.last prediction) (segment_path (is_none segment) self.old.last prediction result) (world self.old memory (lanes log.old) (S.Sink.list sink.old)) }
        ensures rooms { S.Sink.rooms sink.new ≡ S.Sink.rooms sink.old }
        ensures memory { SameMemory log.new log.old }
        ensures tile { self.new.tile ≡ self.old.tile }
        ensures trials { open_trials self.new.journal ≡ open_trials self.old.journal }
        ensures spots { self.new.journal.used.spots ≡ self.old.journal.used.spots }
    {
        let Some(segment) = segment else {
            return prediction;
        };
        let segment = segment as u8;
        let Some(s) = neg_interleave(segment, prediction, self.last + 1) else {
            unreachable!()
        };
        self.symbol(
            sink,
            log,
            Table {
                first: 30 + 8 * number,
                n: 8,
            },
            s as usize,
        );
        segment
    }

    /// Codes the segment of a block, and sets it in the block's cells inside the tile. A skipped block carries none: the
    /// prediction is set, and nothing written. Answers how many entries were written, and the segment.
    pub fn write_segmentation<S: Sink>(
        &mut self,
        sink: &mut S,
        map: &mut [Cell],
        log: &mut Log<'_>,
        bo: TileBlockOffset,
        bsize: BlockSize,
        segment: Option<usize>,
    ) -> Result<(usize, usize), Refusal>
        ensures step { (result, world self.new map.new (lanes log.new) (S.Sink.list sink.new)) ≡ segment_step (length map.old) (S.Sink.rooms sink.old) bo.x bo.y bsize (is_none segment) (unwrap_or segment 0) (world self.old map.old (lanes log.old) (S.Sink.list sink.old)) }
        ensures cells { IfOk result (λ a. SegmentSet self.old.tile bo.x bo.y bsize a.1 map.old map.new) }
        ensures behind { drop (units_of self.old) map.new ≡ drop (units_of self.old) map.old }
        ensures rooms { S.Sink.rooms sink.new ≡ S.Sink.rooms sink.old }
        ensures still { is_ok result ≡ false → (sink.new ≡ sink.old) × (self.new ≡ self.old) × (map.new ≡ map.old) }
        ensures memory { SameMemory log.new log.old }
    {
        let tile = self.tile;
        let block = tile.ask_block(map.len(), 64, bo, bsize)?;
        self.ask_active(segment)?;
        let entries = usize::from(segment.is_some());
        self.journal.ask_record(
            log,
            sink.room(),
            entries,
            Counts {
                small: 0,
                large: entries,
                spots: block.height * block.width,
            },
        )?;
        let cells = &mut map[0..tile.units()];
        let (prediction, number) = tile.get_segment_pred(cells, bo, self.last);
        let set = self.code_segment(sink, log, number, prediction, segment);
        self.journal
            .set_block(cells, log.spots, tile.cols(), block, Change::Segment(set));
        Ok((entries, set as usize))
    }
}
