ghost use Rattle.std.specs.Prelude.{◌≡◌, ◌+◌, ◌<◌, ◌≤◌, true, List, [], ◌∷◌, ◌++◌, length};
ghost use Rattle.av1.specs.declared.tile.Cell.{Cell};
ghost use Rattle.cdf.specs.Entries.{is_entry};
ghost use Rattle.model.specs.Calls.{log_if, small_log, large_log, symbol_step};
ghost use Rattle.model.specs.Coders.{whole};
ghost use Rattle.model.specs.Decisions.{window_at};
ghost use Rattle.model.specs.Runs.{logged};
ghost use Rattle.stage.specs.Lanes.{SameMemory};
ghost use Rattle.stage.specs.View.{lane, lanes, marks_of, open_trials, table_of, world};

use crate::state::{Journal, Stage, Table};
use cdf::{Entry, Tables};
use journal::{Log, Window};
use record::Sink;

// What `W` words from word `first` on are.
fn window_of<const W: usize>(words: &[u16; 430], first: usize) -> Window<W>
    requires { first + W ≤ 430 }
    ensures { result ≡ window_at W words.now first }
{
    let mut copy = [0; W];
    copy.copy_from_slice(&words[first..first + W]);
    Window {
        first: first as u16,
        words: copy,
    }
}

// Puts a record behind those in use.
pub(super) fn log_record<R: Copy>(records: &mut [R], used: &mut usize, r: R)
    requires { used.old < length records.old }
    ensures lane { lane records.new used.new ≡ logged (lane records.old used.old) (r ∷ []) }
{
    let at = *used;
    records[at] = r;
    *used = at + 1;
}

// Puts an entry into a sink that has room for it.
#[tactic(auto, using(crate::proofs::Symbols::put_lawful))]
pub(super) fn put_entry<S: Sink>(sink: &mut S, entry: Entry)
    requires entry { is_entry entry ≡ true }
    requires room { 0 < S.Sink.rooms sink.old (S.Sink.list sink.old) }
    ensures list { S.Sink.list sink.new ≡ S.Sink.list sink.old ++ entry ∷ [] }
    ensures rooms { S.Sink.rooms sink.new ≡ S.Sink.rooms sink.old }
{
    let _ = sink.put(entry);
}

impl Journal {
    // Logs a table's window, while a trial is open.
    fn log_table(&mut self, log: &mut Log<'_>, tables: &Tables, table: Table)
        requires small { 0 < open_trials self.old → table.n ≤ 4 → self.old.used.small < length log.old.small.now }
        requires large { 0 < open_trials self.old → 4 < table.n → self.old.used.large < length log.old.large.now }
        ensures small { lane log.new.small.now self.new.used.small ≡ log_if (marks_of self.old) (lane log.old.small.now self.old.used.small) (small_log (whole (table_of table)) tables.now.words) }
        ensures large { lane log.new.large.now self.new.used.large ≡ log_if (marks_of self.old) (lane log.old.large.now self.old.used.large) (large_log (whole (table_of table)) tables.now.words) }
        ensures spots { (log.new.spots.now ≡ log.old.spots.now) × (self.new.used.spots ≡ self.old.used.spots) }
        ensures few { table.n ≤ 4 → (self.new.used.small ≤ self.old.used.small + 1) × (self.new.used.large ≡ self.old.used.large) }
        ensures many { 4 < table.n → (self.new.used.large ≤ self.old.used.large + 1) × (self.new.used.small ≡ self.old.used.small) }
        ensures marks { self.new.marks ≡ self.old.marks }
        ensures memory { SameMemory log.new log.old }
    {
        if self.marks.is_empty() {
            return;
        }
        if table.n <= 4 {
            log_record(
                log.small,
                &mut self.used.small,
                window_of(tables.words(), table.first),
            );
        } else {
            log_record(
                log.large,
                &mut self.used.large,
                window_of(tables.words(), table.first),
            );
        }
    }
}

impl Stage {
    // Codes symbol `s` by a table: its entry goes to the sink, and the table adapts. Here and in all that calls it `sink`
    // and `log` go on as they were lent: one struct of both would be made and taken apart again in each public call, and
    // each clause would name its fields. Inlined, so that each caller has the adaptation for its own number of symbols.
    #[inline(always)]
    pub(super) fn symbol<S: Sink>(
        &mut self,
        sink: &mut S,
        log: &mut Log<'_>,
        table: Table,
        s: usize,
    )
        requires symbol { s < table.n }
        requires room { 0 < S.Sink.rooms sink.old (S.Sink.list sink.old) }
        requires small { 0 < open_trials self.old.journal → table.n ≤ 4 → self.old.journal.used.small < length log.old.small.now }
        requires large { 0 < open_trials self.old.journal → 4 < table.n → self.old.journal.used.large < length log.old.large.now }
        ensures step { (memory : List Cell) → world self.new memory (lanes log.new) (S.Sink.list sink.new) ≡ symbol_step (whole (table_of table)) s (world self.old memory (lanes log.old) (S.Sink.list sink.old)) }
        ensures rooms { S.Sink.rooms sink.new ≡ S.Sink.rooms sink.old }
        ensures left { S.Sink.rooms sink.old (S.Sink.list sink.old) ≤ S.Sink.rooms sink.new (S.Sink.list sink.new) + 1 }
        ensures few { table.n ≤ 4 → (self.new.journal.used.small ≤ self.old.journal.used.small + 1) × (self.new.journal.used.large ≡ self.old.journal.used.large) }
        ensures many { 4 < table.n → (self.new.journal.used.large ≤ self.old.journal.used.large + 1) × (self.new.journal.used.small ≡ self.old.journal.used.small) }
        ensures memory { SameMemory log.new log.old }
        ensures tile { self.new.tile ≡ self.old.tile }
        ensures trials { open_trials self.new.journal ≡ open_trials self.old.journal }
        ensures spots { self.new.journal.used.spots ≡ self.old.journal.used.spots }
    {
        self.journal.log_table(log, &self.tables, table);
        let Some(entry) = self.tables.symbol_with_update(table.first, table.n, s) else {
            unreachable!()
        };
        put_entry(sink, entry);
    }
}
