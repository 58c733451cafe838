// The listing of a pool, written into lent memory: the lines that the lister prints, defined by the pool's bytes alone. Buffer and place are
// two parameters, as `decimal` says why.
#![tactic(auto)]

ghost use Rattle.std.specs.Prelude.{◌+◌, ◌*◌, ◌/◌, ◌≤◌, ◌≡◌, List, length};
ghost use Rattle.std.proofs.lemmas.List.Edits.{sets};
ghost use Rattle.faults.specs.Faults.{FaultEntry, width};
ghost use Rattle.naming.specs.Entries.{entries_in};
ghost use Rattle.pool_listing.specs.Listing.{record_lines, fault_lines, findings, listing_of};
ghost use Rattle.pool_listing.specs.Parts.{Adds, Held, faults_in};

use naming::RecordList;
use pool::LONG_LIST;
use records::view;

// How many entries the table has that a pool is listed for.
const ROOM: usize = 2048;

// How many faults have a line at most.
const MOST_LISTED: usize = 1024;

// The bytes of the longest listing, 102,413: the line for the count has at most 13, a record's 32 and a fault's 36.
pub const LONGEST: usize = 13 + 32 * ROOM + 36 * MOST_LISTED;

// Writes a line for each record, which ends where the next one starts. A line has at most 32 bytes.
fn put_records(records: &RecordList, out: &mut [u8], from: usize) -> usize
    requires { from + 32 * length records.now.starts.now ≤ length out.old + 32 }
    ensures { Adds out.old from (record_lines (entries_in records.now)) out.new result × (result + 32 ≤ from + 32 * length records.now.starts.now) }
{
    let starts = records.starts;
    let mut at = from;
    for (start, end) in starts.iter().zip(&starts[1..]) {
        at = listing::put_record(
            out,
            at,
            view::kind_number(records.pool, *start),
            view::id(records.pool, *start),
            *start,
            *end - *start,
        );
    }
    at
}

// Writes a line for each fault in a buffer. A line has at most 36 bytes.
fn put_faults(faults: &[u16], out: &mut [u8], from: usize) -> usize
    requires { from + 36 * (length faults.now / width) ≤ length out.old }
    ensures { Adds out.old from (fault_lines (faults_in (length faults.now / width) faults.now)) out.new result × (result ≤ from + 36 * (length faults.now / width)) }
{
    let (entries, _) = faults.as_chunks::<{ faults::WIDTH }>();
    let mut at = from;
    for [number, rule, item, id, parent] in entries {
        at = listing::put_fault(out, at, *number, *rule, *item, *id, *parent);
    }
    at
}

// Writes what checking found, given how many faults there are in all, which is no length of the buffer: it holds the first 1,024.
fn put_findings(faults: &[u16], found: usize, out: &mut [u8], from: usize) -> usize
    requires { (length faults.now ≡ width * MOST_LISTED) × (from + 36 * MOST_LISTED ≤ length out.old) }
    ensures { ((fs : List FaultEntry) → Held faults.now fs → found ≡ length fs → Adds out.old from (findings fs) out.new result) × (result ≤ from + 36 * MOST_LISTED) }
{
    if found == 0 {
        return listing::put_accepted(out, from);
    }
    let listed = found.min(MOST_LISTED);
    put_faults(&faults[..listed * faults::WIDTH], out, from)
}

// Lists a pool, with a list that is long enough for the starts of every pool's records, and a buffer for its first 1,024 faults.
fn list_by(p: &[u8], starts: &mut [u16], faults: &mut [u16], out: &mut [u8]) -> usize
    requires { (length starts.old ≡ LONG_LIST) × (length faults.old ≡ width * MOST_LISTED) × (LONGEST ≤ length out.old) }
    ensures { Adds out.old 0 (listing_of p.now) out.new result × (result ≤ LONGEST) }
{
    match checker::check_by(p, ROOM, starts, faults) {
        Err(refusal) => {
            let place = refusal.place() as u64;
            listing::put_refused(out, 0, u32::from(refusal) as u64, place)
        }
        Ok(checked) => {
            let first = listing::put_count(out, 0, checked.records as u64);
            let records = RecordList {
                pool: p,
                starts: &starts[..=checked.records],
            };
            let next = put_records(&records, out, first);
            put_findings(faults, checked.faults, out, next)
        }
    }
}

// Writes the listing of a pool to the start of a buffer, and returns its length.
pub fn list(p: &[u8], out: &mut [u8]) -> usize
    requires { LONGEST ≤ length out.old }
    ensures { (out.new ≡ sets out.old 0 (listing_of p.now)) × (result ≡ length (listing_of p.now)) × (result ≤ length out.new) }
{
    let mut starts = [0u16; LONG_LIST];
    let mut faults = [0u16; MOST_LISTED * faults::WIDTH];
    list_by(p, &mut starts, &mut faults, out)
}
