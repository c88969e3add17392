ghost use Rattle.std.specs.Prelude.{◌≡◌};
ghost use Rattle.analysis.specs.Calls.{read_answer};

use crate::state::Done;
use rows::row::Row;
use table::Table;

impl Done {
    // The least row of the relation of `from` that is not below it.
    #[tactic(auto, using(crate::proofs::Readings::read_kept))]
    pub fn read<T: Table>(&self, t: &T, from: Row) -> Option<Row>
        ensures { result ≡ read_answer (T.means.rows t.now) from }
    {
        t.next(from).filter(|r| r.relation == from.relation)
    }
}
