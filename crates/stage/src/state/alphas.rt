ghost use Rattle.std.specs.Prelude.{◌≡◌, ◌+◌, ◌<◌, ◌≤◌, false, List, length, IfSome, is_ok};
ghost use Rattle.av1.specs.declared.tile.Cell.{Cell};
ghost use Rattle.model.specs.Calls.{decision_step};
ghost use Rattle.model.specs.declared.Question.TheVariants as question;
ghost use Rattle.stage.specs.Alphas.{scale_count, scale_step};
ghost use Rattle.stage.specs.Lanes.{SameMemory};
ghost use Rattle.stage.specs.View.{lanes, open_trials, world};

use crate::state::{Stage, Table};
use av1::{CFLParams, Refusal};
use journal::{Counts, Log};
use record::Sink;

impl Stage {
    // Codes an alpha by its context and its symbol; a zero has none.
    fn code_scale<S: Sink>(
        &mut self,
        sink: &mut S,
        log: &mut Log<'_>,
        scale: Option<(usize, usize)>,
    )
        requires within { IfSome scale (λ s. (s.0 < 6) × (s.1 < 16)) }
        requires room { scale_count scale ≤ S.Sink.rooms sink.old (S.Sink.list sink.old) }
        requires large { 0 < open_trials self.old.journal → self.old.journal.used.large + scale_count scale ≤ length log.old.large.now }
        ensures step { (memory : List Cell) → world self.new memory (lanes log.new) (S.Sink.list sink.new) ≡ scale_step scale (world self.old memory (lanes log.old) (S.Sink.list sink.old)) }
        ensures rooms { S.Sink.rooms sink.new ≡ S.Sink.rooms sink.old }
        ensures left { S.Sink.rooms sink.old (S.Sink.list sink.old) ≤ S.Sink.rooms sink.new (S.Sink.list sink.new) + scale_count scale }
        ensures many { self.new.journal.used.large ≤ self.old.journal.used.large + scale_count scale }
        ensures memory { SameMemory log.new log.old }
        ensures trials { open_trials self.new.journal ≡ open_trials self.old.journal }
    {
        if let Some((context, index)) = scale {
            self.symbol(
                sink,
                log,
                Table {
                    first: 206 + 16 * context,
                    n: 16,
                },
                index,
            );
        }
    }

    /// Codes chroma alphas: their signs by one symbol, then each that is not zero. Answers how many entries were
    /// written.
    pub fn write_cfl_alphas<S: Sink>(
        &mut self,
        sink: &mut S,
        log: &mut Log<'_>,
        u: i32,
        v: i32,
    ) -> Result<usize, Refusal>
        ensures step { (memory : List Cell) → (result, world self.new memory (lanes log.new) (S.Sink.list sink.new)) ≡ decision_step (length memory) (S.Sink.rooms sink.old) question.Alphas (u, v) (world self.old memory (lanes log.old) (S.Sink.list sink.old)) }
        ensures rooms { S.Sink.rooms sink.new ≡ S.Sink.rooms sink.old }
        ensures still { is_ok result ≡ false → (sink.new ≡ sink.old) × (self.new ≡ self.old) }
        ensures memory { SameMemory log.new log.old }
    {
        let cfl = CFLParams::from_alpha(u, v).ok_or(Refusal::Alphas)?;
        let entries = 1 + cfl.count_scales();
        self.journal.ask_record(
            log,
            sink.room(),
            entries,
            Counts {
                small: 0,
                large: entries,
                spots: 0,
            },
        )?;
        let [first, second] = cfl.scales();
        self.symbol(sink, log, Table { first: 22, n: 8 }, cfl.joint_sign());
        self.code_scale(sink, log, first);
        self.code_scale(sink, log, second);
        Ok(entries)
    }
}
