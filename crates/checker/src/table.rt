// Checking over the working table: the table is filled from the records' starts that the check has listed, so the pool is walked only
// once.
ghost use Rattle.std.specs.Prelude.{◌≡◌, ◌≤◌, length};
ghost use Rattle.pool.specs.Walk.{Suffices};
ghost use Rattle.working_table.specs.Table.{records_after};
ghost use Rattle.checker.specs.Checking.{verdict_of, records_in, check_of, count_of, faults_after};
ghost use Rattle.checker.specs.Tables.{ChecksInto};

use super::Checked;
use pool::{LONG_LIST, Refusal, SHORT_LIST, SHORT_POOL};
use working_table::Record;

// With a list of N numbers. `working_table::fill` lends such a list too, but promises nothing of what the closure changes besides the list,
// and a check writes the faults. A lender that hands a buffer on, for this and `activation::activate`, would be longer than what they
// share: the list, the core and `gather`.
fn check_in<const N: usize>(
    p: &[u8],
    table: &mut [Record],
    faults: &mut [u16],
) -> Result<Checked, Refusal>
    requires { (N ≤ LONG_LIST) × Suffices N p.now }
    ensures { ChecksInto p.now table.old faults.old result table.new faults.new }
{
    let mut starts = [0u16; N];
    let verdict = super::check_by(p, table.len(), &mut starts, faults);
    working_table::gather(p, &starts, super::records_of(verdict), table);
    verdict
}

// Checks a pool: fills the table as reading does, and writes as many faults as fit into the buffer.
pub fn check(p: &[u8], table: &mut [Record], faults: &mut [u16]) -> Result<Checked, Refusal>
    ensures { (verdict_of result ≡ check_of p.now (length table.old)) × (records_in result ≡ count_of p.now (length table.old)) × (table.new ≡ records_after p.now table.old) × (faults.new ≡ faults_after p.now (length table.old) faults.old) }
{
    if p.len() <= SHORT_POOL {
        return check_in::<SHORT_LIST>(p, table, faults);
    }
    check_in::<LONG_LIST>(p, table, faults)
}
