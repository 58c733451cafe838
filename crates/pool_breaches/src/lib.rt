// Counts the faults of a pool whose records have been listed, in one pass: each record is looked at once, and its faults are reported at
// once, so that they come in order.
#![tactic(auto)]

mod sight;

ghost use Rattle.std.specs.Prelude.{◌≡◌, ◌+◌, ◌*◌, ◌≤◌, ◌<◌, ◌^◌, length};
ghost use Rattle.faults.specs.Emission.{Emits};
ghost use Rattle.pool.specs.Walk.{entries_of, Divided};
ghost use Rattle.naming.specs.Records.{kind_at};
ghost use Rattle.naming.specs.Entries.{entries_in};
ghost use Rattle.rules.specs.Table.{breaches_in};
ghost use Rattle.pool_breaches.specs.Passing.{Completes, Sighted, Added};
ghost use Rattle.pool_breaches.specs.Lending.{AnswersFor};

use faults::FaultList;
use field_rules::whole::NamedPool;
use naming::{NamedRecords, RecordList};
use pool::{LONG_LIST, SHORT_LIST};
use record_breaches::{ElementRecord, OtherRecord, PLACES};
use records::Kind;
use sight::Sight;

// The bytes of a list of marks with a bit for each record, for a short list of starts and for a long one.
const SHORT_MARKS: usize = SHORT_LIST / 8;

const LONG_MARKS: usize = (LONG_LIST + 7) / 8;

// The faults of record i, a device element.
fn pass_element(names: &NamedRecords, i: usize, sight: &mut Sight, faults: &mut FaultList)
    requires { (i + 1 < length names.now.records.starts.now) × (kind_at (entries_in names.now.records) i ≡ 2) × Sighted names.now.records i sight.old × (faults.old.count < 2 ^ 37) }
    ensures { Added names.now.records i faults.old faults.new × Sighted names.now.records (i + 1) sight.new }
{
    let element = ElementRecord::new(names, i);
    let (again, endless) = sight.judge(&element);
    record_breaches::put_element(&element, again, endless, sight.seen, faults);
}

// The faults of record i.
fn pass(pool: &NamedPool, i: usize, sight: &mut Sight, faults: &mut FaultList)
    requires { (i + 1 < length pool.now.names.records.starts.now) × Sighted pool.now.names.records i sight.old × (faults.old.count < 2 ^ 37) }
    ensures { Added pool.now.names.records i faults.old faults.new × Sighted pool.now.names.records (i + 1) sight.new }
{
    let kind = pool.names.records.record_kind(i);
    match kind {
        Kind::Det => pass_element(&pool.names, i, sight, faults),
        _ => record_breaches::put_other(&OtherRecord { pool, i, kind }, faults),
    }
}

// The faults of all records, after those of the whole pool.
fn put_records(pool: &NamedPool, sight: &mut Sight, faults: &mut FaultList)
    requires { Sighted pool.now.names.records 0 sight.old × (faults.old.count ≤ 2) }
    ensures { Completes pool.now.names.records.pool.now (entries_in pool.now.names.records) faults.old faults.new }
{
    for i in 0..pool.names.records.starts.len() - 1 {
        pass(pool, i, sight, faults);
    }
}

// The faults of a pool whose IDs have been listed, where the pass over its records knows nothing yet of rules 8 and 9. The marks have any
// length here, so that the pass has one caller, into which the compiler copies it.
fn put_sighted(names: &NamedRecords, mut sight: Sight, faults: &mut [u16]) -> usize
    requires { Sighted names.now.records 0 sight }
    ensures { Emits faults.old 0 (breaches_in names.now.records.pool.now (entries_in names.now.records)) faults.new result }
{
    // A copy, which the compiler keeps in registers: behind the reference all of it would be read again after each byte that is written.
    let pool = NamedPool::new(*names);
    let mut found = field_rules::whole::put_pool(&pool.names.records, pool.device, faults);
    put_records(&pool, &mut sight, &mut found);
    found.count
}

// The same, with MARKS bytes of marks for each of these rules. Each length has a function of its own.
fn put_marked<const MARKS: usize>(names: &NamedRecords, faults: &mut [u16]) -> usize
    requires { (length names.now.records.starts.now ≤ 8 * MARKS) × (MARKS ≤ 8192) }
    ensures { Emits faults.old 0 (breaches_in names.now.records.pool.now (entries_in names.now.records)) faults.new result }
{
    let mut numbers = [0u8; 512];
    let mut again = [0u8; MARKS];
    let mut endless = [0u8; MARKS];
    let mut seen = [0u8; PLACES];
    let sight = Sight {
        numbers: &mut numbers,
        again: &mut again,
        endless: &mut endless,
        seen: &mut seen,
        full: false,
    };
    put_sighted(names, sight, faults)
}

// The faults of a pool whose IDs have been listed.
pub fn put_all(names: &NamedRecords, faults: &mut [u16]) -> usize
    ensures { Emits faults.old 0 (breaches_in names.now.records.pool.now (entries_in names.now.records)) faults.new result }
{
    if names.records.starts.len() <= SHORT_LIST {
        return put_marked::<SHORT_MARKS>(names, faults);
    }
    put_marked::<LONG_MARKS>(names, faults)
}

// Lends a core the records with lists of these lengths: HEADS heads and LINKS links. Each pair of lengths has a function of its own.
fn lend<const HEADS: usize, const LINKS: usize, T, F: FnOnce(&NamedRecords, &mut [u16]) -> T>(
    records: RecordList,
    faults: &mut [u16],
    core: F,
) -> T
    requires room { (0 < HEADS) × (length records.starts.now ≤ LINKS) × (HEADS ≤ 8192) × (LINKS ≤ 8192) }
    requires callable { F.IsAlwaysCallable core }
    ensures { AnswersFor F.FnOnce core records.entry faults.old result faults.new }
{
    let mut heads = [0u16; HEADS];
    let mut next = [0u16; LINKS];
    let names = records.link(&mut heads, &mut next);
    core(&names, faults)
}

// Lends a core the records with lists by which their IDs name them, and returns its answer. The lists have one of two lengths: clearing
// the long ones would take most of the time that a short pool takes. The fault buffer is handed on to the core, which does not hold it: of
// what a closure itself changes nothing is known afterwards.
pub fn with_names<T, F: FnOnce(&NamedRecords, &mut [u16]) -> T>(
    records: RecordList,
    faults: &mut [u16],
    core: F,
) -> T
    requires { F.IsAlwaysCallable core }
    ensures { AnswersFor F.FnOnce core records.entry faults.old result faults.new }
{
    if records.starts.len() <= SHORT_LIST {
        return lend::<512, SHORT_LIST, T, F>(records, faults, core);
    }
    lend::<8192, LONG_LIST, T, F>(records, faults, core)
}

// Counts the faults of a pool whose records have been listed and writes the first ones to the buffer. It takes a pool and its starts, since
// the documents name it with both, and makes the list of records of them.
pub fn count_faults(p: &[u8], starts: &[u16], faults: &mut [u16]) -> usize
    requires { Divided p.now starts.now }
    ensures { Emits faults.old 0 (breaches_in p.now (entries_of p.now starts.now)) faults.new result }
{
    with_names(RecordList { pool: p, starts }, faults, put_all)
}
