// The derived rows of a run.
ghost use Rattle.std.specs.Prelude.{◌<◌};
ghost use Rattle.analysis.specs.Calls.{Advancing};
ghost use Rattle.listing.specs.Listing.{most, unspent};

use analysis::fault::RunFault;
use analysis::state::Running;
use output::progress::Progress;
use table::Table;

// Derives every missing row, and answers how many were added. The table has less room than the largest budget, so that this is
// never spent.
pub(crate) fn derive<T: Table>(running: &mut Running, t: &mut T) -> Result<u32, RunFault>
    requires { (T.means.bounds t.old).total < most }
    ensures { Advancing T.means most t.old (unspent result) t.new }
{
    match running.advance(t, u32::MAX)? {
        Progress::Finished(n) => Ok(n),
        Progress::Spent(_) => unreachable(),
    }
}
