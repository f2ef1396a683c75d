//! A caller that holds its trial in an `Option`. The check refuses it where the trial is forgotten, or taken back after
//! it was kept. And one that sees of any stage that at most 16 trials are open.
#![tactic(auto)]

ghost use Rattle.std.specs.Prelude.{◌≡◌, ℕ, ◌+◌, true, false, List, length, drop, is_ok, is_some, IfErr, Some, None};
ghost use Rattle.holder.specs.Held.{depth_held};
ghost use Rattle.av1.specs.declared.tile.Cell.{Cell};
ghost use Rattle.cdf.specs.declared.entry.Entry.{Entry};
ghost use Rattle.model.specs.Calls.{back_step, keep_step};
ghost use Rattle.model.specs.Decisions.{stage as subject};
ghost use Rattle.model.specs.Runs.{Lent};
ghost use Rattle.stage.specs.View.{kept_of, lanes, open_trials, units_of, world};

use av1::{Cell, Refusal};
use journal::Log;
use record::Sink;
use stage::{Stage, Trial};

// Takes back the trial that is held: there has to be one.
fn take_back<S: Sink>(
    stage: &mut Stage,
    sink: &mut S,
    map: &mut [Cell],
    log: &Log<'_>,
    held: &Option<Trial>,
) -> Result<(), Refusal>
    requires { is_some held.now ≡ true }
    ensures step { (result, world stage.new map.new (lanes log.now) (S.Sink.list sink.new)) ≡ back_step (length map.old) (S.Sink.rooms sink.old) (depth_held held.now) (world stage.old map.old (lanes log.now) (S.Sink.list sink.old)) }
    ensures behind { drop (units_of stage.old) map.new ≡ drop (units_of stage.old) map.old }
    ensures rooms { S.Sink.rooms sink.new ≡ S.Sink.rooms sink.old }
    ensures still { is_ok result ≡ false → (sink.new ≡ sink.old) × (stage.new ≡ stage.old) × (map.new ≡ map.old) }
{
    match held {
        Some(trial) => stage.take_back(sink, map, log, trial),
        None => unreachable!(),
    }
}

// Keeps the trial that is held, and holds none from then on. A trial that is refused is handed back.
fn keep(stage: &mut Stage, held: &mut Option<Trial>) -> Result<(), (Refusal, Trial)>
    requires { is_some held.old ≡ true }
    ensures step { (memory : List Cell) (rooms : List Entry → ℕ) (l : Lent subject) (entries : List Entry) → (kept_of result, world stage.new memory l entries) ≡ keep_step (length memory) rooms (depth_held held.old) (world stage.old memory l entries) }
    ensures handed { IfErr result (λ e. Some e.1 ≡ held.old) }
    ensures none { held.new ≡ None }
    ensures still { is_ok result ≡ false → stage.new ≡ stage.old }
{
    match held.take() {
        Some(trial) => stage.keep(trial),
        None => unreachable!(),
    }
}

/// Takes a trial back, and keeps it. A trial that is refused is handed back.
pub fn take_back_and_keep<S: Sink>(
    stage: &mut Stage,
    sink: &mut S,
    map: &mut [Cell],
    log: &Log<'_>,
    trial: Trial,
) -> Result<(), (Refusal, Trial)>
    ensures step { (kept_of result, world stage.new map.new (lanes log.now) (S.Sink.list sink.new)) ≡ keep_step (length map.old) (S.Sink.rooms sink.old) trial.depth (back_step (length map.old) (S.Sink.rooms sink.old) trial.depth (world stage.old map.old (lanes log.now) (S.Sink.list sink.old))).1 }
    ensures handed { IfErr result (λ e. e.1 ≡ trial) }
    ensures behind { drop (units_of stage.old) map.new ≡ drop (units_of stage.old) map.old }
    ensures rooms { S.Sink.rooms sink.new ≡ S.Sink.rooms sink.old }
    ensures still { is_ok result ≡ false → (sink.new ≡ sink.old) × (stage.new ≡ stage.old) × (map.new ≡ map.old) }
{
    let mut held = Some(trial);
    let _ = take_back(stage, sink, map, log, &held);
    let kept = keep(stage, &mut held);
    match held {
        None => kept,
        Some(_) => unreachable!(),
    }
}

/// How many more trials can be opened.
pub fn trials_left(stage: &Stage) -> usize
    ensures { result + open_trials stage.now.journal ≡ 16 }
{
    16 - stage.trials()
}
