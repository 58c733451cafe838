// Checking a pool against the rule table: the full count of faults, and the first ones in a lent buffer.
#![tactic(auto)]

use pool::Refusal;

mod table;

ghost use Rattle.std.specs.Prelude.{◌≡◌};
ghost use Rattle.pool.specs.Walk.{Reaches, Listed};
ghost use Rattle.checker.specs.Checking.{verdict_of, records_in, check_of, count_of, faults_after};

pub use table::check;

// A pool that is read: how many records it has, and how many faults in all.
#[derive(Clone, Copy)]
pub struct Checked {
    pub records: usize,
    pub faults: usize,
}

// Checks a pool for a table of `room` entries, with a list that is long enough for the starts of every record, and writes as many faults
// as fit into the buffer. The list then begins with the records' starts and the end of the last one; after a refusal its contents are free.
// It is a parameter of its own for the reason that `pool::list_for` gives.
pub fn check_by(
    p: &[u8],
    room: usize,
    starts: &mut [u16],
    faults: &mut [u16],
) -> Result<Checked, Refusal>
    requires { Reaches starts.old p.now }
    ensures { (verdict_of result ≡ check_of p.now room) × (records_in result ≡ count_of p.now room) × Listed p.now room starts.new × (faults.new ≡ faults_after p.now room faults.old) }
{
    let records = pool::list_for(p, room, starts)?;
    let listed = &starts[..=records];
    let found = pool_breaches::count_faults(p, listed, faults);
    faults::name_objects(p, listed, faults, found);
    Ok(Checked {
        records,
        faults: found,
    })
}

// The count of records, 0 for a refusal. It is no `From`: neither a `Result` nor a `usize` is a type of this crate.
pub fn records_of(verdict: Result<Checked, Refusal>) -> usize
    ensures { result ≡ records_in verdict }
{
    verdict.map_or(0, |checked| checked.records)
}
