// The ring of records, and how many operations are decided.
ghost use Rattle.std.specs.Prelude.{◌≡◌, true, ◌≤◌, ◌%◌};
ghost use Rattle.basics.specs.Counts.{counts};
ghost use Rattle.state.specs.Numbers.{most_issued, most_decided};
ghost use Rattle.hub.specs.Ring.{most_kept, kept_count, total as total_of};

use crate::{Hub, Next};

// How many operations are decided: the sum of all next.
pub fn total(next: &Next, machines: usize) -> u64
    requires { counts next.now machines most_issued ≡ true }
    ensures { (result ≡ total_of next.now) × (result ≤ most_decided) }
{
    next.iter().sum()
}

// The place of record `n`.
pub fn slot(n: u64) -> usize
    ensures { result ≡ n % most_kept }
{
    // std has no `From` here: the check proves that nothing is lost.
    (n % Hub::KEPT as u64) as usize
}

// How many records are kept.
pub fn kept(decided: u64) -> u64
    ensures { result ≡ kept_count decided }
{
    // std has no `From` here: the check proves that nothing is lost.
    decided.min(Hub::KEPT as u64)
}
