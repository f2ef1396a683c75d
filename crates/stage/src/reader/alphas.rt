ghost use Rattle.std.specs.Prelude.{◌≡◌, ◌≤◌, false, List, length, is_ok};
ghost use Rattle.av1.specs.Alphas.{sign_number};
ghost use Rattle.av1.specs.declared.tile.Cell.{Cell};
ghost use Rattle.model.specs.Alphas.{alpha_tree, alphas_tree};
ghost use Rattle.model.specs.declared.Question.TheVariants as question;
ghost use Rattle.model.specs.Reading.{read_step};
ghost use Rattle.stage.specs.Faults.{seen};
ghost use Rattle.stage.specs.Reads.{point, Reads};
ghost use Rattle.stage.specs.View.{state_of};

use crate::reader::Reader;
use crate::reader::fault::{ReadError, ReadFault};
use crate::state::Table;
use av1::CFLSign;
use record::Source;

impl Reader {
    // Reads an alpha by its sign and the other's; a zero has no symbol.
    fn read_alpha<Q: Source>(
        &mut self,
        source: &mut Q,
        start: usize,
        sign: CFLSign,
        other: CFLSign,
    ) -> Result<i32, ReadFault>
        requires { start ≤ Q.Source.place source.old }
        ensures { Reads start (alpha_tree (sign_number sign) (sign_number other)) (point self.old.stage (Q.Source.list source.old) (Q.Source.place source.old)) (point self.new.stage (Q.Source.list source.new) (Q.Source.place source.new)) result }
    {
        let Some(context) = sign.context(other) else {
            return Ok(0);
        };
        let table = Table {
            first: 206 + 16 * context,
            n: 16,
        };
        let symbol = self.read_entry(source, start, table)?;
        Ok(sign.alpha(symbol))
    }

    // Reads the signs of both alphas by one symbol, and then each that is not zero.
    fn decode_cfl_alphas<Q: Source>(
        &mut self,
        source: &mut Q,
        start: usize,
    ) -> Result<(i32, i32), ReadFault>
        requires { start ≤ Q.Source.place source.old }
        ensures { Reads start alphas_tree (point self.old.stage (Q.Source.list source.old) (Q.Source.place source.old)) (point self.new.stage (Q.Source.list source.new) (Q.Source.place source.new)) result }
    {
        let joint = self.read_entry(source, start, Table { first: 22, n: 8 })?;
        let Some((sign_u, sign_v)) = CFLSign::from_joint(usize::from(joint)) else {
            unreachable!()
        };
        let u = self.read_alpha(source, start, sign_u, sign_v)?;
        let v = self.read_alpha(source, start, sign_v, sign_u)?;
        Ok((u, v))
    }

    /// Reads chroma alphas.
    pub fn read_cfl_alphas<Q: Source>(&mut self, source: &mut Q) -> Result<(i32, i32), ReadError>
        ensures step { (memory : List Cell) → (seen result, state_of self.new.stage memory, Q.Source.place source.new) ≡ read_step (length memory) (Q.Source.list source.old) question.Alphas (state_of self.old.stage memory) (Q.Source.place source.old) }
        ensures list { Q.Source.list source.new ≡ Q.Source.list source.old }
        ensures still { is_ok result ≡ false → self.new ≡ self.old }
    {
        let start = source.place();
        let saved = self.stage.tables;
        match self.decode_cfl_alphas(source, start) {
            Ok(alphas) => Ok(alphas),
            Err(fault) => {
                self.go_back(source, saved, start);
                Err(ReadError::from(fault))
            }
        }
    }
}
