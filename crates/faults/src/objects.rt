// The objects that faults are about: once a pool has been checked, each fault that was written gets the object ID and the parent ID of
// its record, read from the pool.
ghost use Rattle.std.specs.Prelude.{◌≡◌, ◌<◌, ◌/◌, length};
ghost use Rattle.pool.specs.Walk.{entries_of, Divided};
ghost use Rattle.naming.specs.Entries.{entries_in};
ghost use Rattle.faults.specs.Faults.{record_id, record_parent, width};
ghost use Rattle.faults.specs.Completing.{named_from, Below, Unnamed, Completed};

use super::WIDTH;
use naming::RecordList;
use records::view;

#[derive(Clone, Copy)]
struct Ids {
    id: u16,
    parent: u16,
}

// The IDs of the whole pool, which has none.
const NONE: Ids = Ids {
    id: 65535,
    parent: 65535,
};

// The two IDs of the record with a number, or of the whole pool, which is record 0.
fn ids_of(records: &RecordList, number: u16) -> Ids
    requires { number < length records.now.starts.now }
    ensures { (result.id ≡ record_id (entries_in records.now) number) × (result.parent ≡ record_parent (entries_in records.now) number) }
{
    if number == 0 {
        return NONE;
    }
    let start = records.starts[number as usize - 1];
    Ids {
        id: view::id(records.pool, start),
        parent: view::parent_id(records.pool, start),
    }
}

// Writes the two IDs of each of these faults. Faults of one record follow each other, so its IDs are read once. The faults are taken by
// their places: a proof knows nothing of the elements of a slice that was lent in parts, as by `chunks_exact_mut`.
fn name_all(records: &RecordList, faults: &mut [u16])
    requires { Below (length records.now.starts.now) faults.old (length faults.old / width) }
    ensures { faults.new ≡ named_from (entries_in records.now) 0 (length faults.old / width) faults.old }
{
    let mut known: u16 = 0;
    let mut ids = NONE;
    for i in 0..faults.len() / WIDTH {
        let at = i * WIDTH;
        let number = faults[at];
        if number != known {
            ids = ids_of(records, number);
            known = number;
        }
        faults[at + 3] = ids.id;
        faults[at + 4] = ids.parent;
    }
}

// Completes the faults that a check has written into the buffer: all that it found, or as many as there is room for. It takes a pool and
// its starts, since the documents name it with both, and makes the list of records of them.
pub fn name_objects(p: &[u8], starts: &[u16], buffer: &mut [u16], found: usize)
    requires { Divided p.now starts.now × Unnamed (length starts.now) buffer.old found }
    ensures { Completed (entries_of p.now starts.now) buffer.old found buffer.new }
{
    let room = buffer.len() / WIDTH;
    let records = RecordList { pool: p, starts };
    name_all(&records, &mut buffer[..found.min(room) * WIDTH]);
}
