ghost use Rattle.std.specs.Prelude.{◌≡◌};
ghost use Rattle.analysis.specs.Calls.{begun};

use crate::fault::RunFault;
use crate::state::Filling;
use table::Table;

// Begins a run on an empty table.
pub fn begin<T: Table>(t: &T) -> Result<Filling, RunFault>
    ensures { result ≡ begun (T.means.rows t.now) }
{
    if t.count() == 0 {
        Ok(Filling { facts: 0 })
    } else {
        Err(RunFault::NotEmpty)
    }
}
