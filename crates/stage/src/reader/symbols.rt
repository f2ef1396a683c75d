ghost use Rattle.std.specs.Prelude.{◌≡◌, ◌<◌, ◌≤◌, false, is_ok, IfOk};
ghost use Rattle.cdf.specs.Entries.{edge_symbols};
ghost use Rattle.model.specs.Coders as coder;
ghost use Rattle.model.specs.Tree.{one};
ghost use Rattle.stage.specs.Reads.{point, symbol_tree, OnlyTables, Reads, Took};
ghost use Rattle.stage.specs.View.{table_of};

use crate::reader::Reader;
use crate::reader::fault::{ReadFault, SymbolFault};
use crate::state::Table;
use cdf::{Edge, Tables};
use record::Source;

impl Reader {
    // Reads a symbol by a table, which adapts to it.
    fn read_symbol<Q: Source>(&mut self, source: &mut Q, table: Table) -> Result<u8, SymbolFault>
        ensures took { Took (coder.whole (table_of table)) (point self.old.stage (Q.Source.list source.old) (Q.Source.place source.old)) (point self.new.stage (Q.Source.list source.new) (Q.Source.place source.new)) result }
        ensures still { is_ok result ≡ false → self.new ≡ self.old }
    {
        let words = self.stage.tables.words();
        let s = source
            .next(&words[table.first..table.first + table.n])
            .map_err(|fault| (fault, table.first))?;
        let _ = self
            .stage
            .tables
            .symbol_with_update(table.first, table.n, usize::from(s));
        Ok(s)
    }

    // Reads one of the two symbols at an edge. The table that they are summed from does not adapt.
    fn read_edge_symbol<Q: Source>(
        &self,
        source: &mut Q,
        table: Table,
        edge: Edge,
    ) -> Result<u8, SymbolFault>
        ensures { Took (coder.edge (table_of table) (edge_symbols edge)) (point self.now.stage (Q.Source.list source.old) (Q.Source.place source.old)) (point self.now.stage (Q.Source.list source.new) (Q.Source.place source.new)) result }
    {
        let Some(words) = self.stage.tables.edge_table(table.first, table.n, edge) else {
            unreachable!()
        };
        let s = source.next(&words).map_err(|fault| (fault, table.first))?;
        Ok(s)
    }

    // Reads a symbol of a decision that began at place `start`: the entry's number is how far the source has come.
    pub(super) fn read_entry<Q: Source>(
        &mut self,
        source: &mut Q,
        start: usize,
        table: Table,
    ) -> Result<u8, ReadFault>
        requires { start ≤ Q.Source.place source.old }
        ensures reads { Reads start (one table.first table.n) (point self.old.stage (Q.Source.list source.old) (Q.Source.place source.old)) (point self.new.stage (Q.Source.list source.new) (Q.Source.place source.new)) result }
        ensures below { IfOk result (λ s. s < table.n) }
        ensures still { is_ok result ≡ false → (self.new ≡ self.old) × (Q.Source.place source.new ≡ Q.Source.place source.old) }
    {
        let entry = source.place() - start;
        let s = self
            .read_symbol(source, table)
            .map_err(|symbol| (symbol, entry))?;
        Ok(s)
    }

    // The same at an edge.
    pub(super) fn read_edge_entry<Q: Source>(
        &self,
        source: &mut Q,
        start: usize,
        table: Table,
        edge: Edge,
    ) -> Result<u8, ReadFault>
        requires { start ≤ Q.Source.place source.old }
        ensures reads { Reads start (symbol_tree (coder.edge (table_of table) (edge_symbols edge))) (point self.now.stage (Q.Source.list source.old) (Q.Source.place source.old)) (point self.now.stage (Q.Source.list source.new) (Q.Source.place source.new)) result }
        ensures still { is_ok result ≡ false → Q.Source.place source.new ≡ Q.Source.place source.old }
    {
        let entry = source.place() - start;
        let s = self
            .read_edge_symbol(source, table, edge)
            .map_err(|symbol| (symbol, entry))?;
        Ok(s)
    }

    // Tables and source as they were where a decision began.
    pub(super) fn go_back<Q: Source>(&mut self, source: &mut Q, saved: Tables, start: usize)
        requires { start ≤ Q.Source.place source.old }
        ensures tables { self.new.stage.tables ≡ saved }
        ensures kept { OnlyTables self.new.stage self.old.stage }
        ensures list { Q.Source.list source.new ≡ Q.Source.list source.old }
        ensures place { Q.Source.place source.new ≡ start }
    {
        self.stage.tables = saved;
        let _ = source.back(start);
    }
}
