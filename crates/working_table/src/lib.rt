// The working table: a lent slice of records, one entry for each record of a pool. The pool is read first, so that a refusal
// leaves the table as it was. Then the table is filled from the pool, by the starts of the records that reading has listed.
#![tactic(auto)]

ghost use Rattle.std.specs.Prelude.{◌≡◌, length};
ghost use Rattle.pool.specs.Answer.{answer_of, records_in};
ghost use Rattle.pool.specs.Reading.{read_of};
ghost use Rattle.pool.specs.Walk.{Reaches, Listed};
ghost use Rattle.working_table.specs.Table.{records_after};
ghost use Rattle.working_table.specs.Rows.{row_in, gathered, Stands, Fillable};

use pool::Refusal;
use records::view;

mod by_list;

pub use by_list::{Counted, fill};

// An entry of the table. The kind is its number: 1 DVC, 2 DET, 3 DPD, 4 DPT, 5 DVP. Only a DET has a parent ID; the others have 65535.
#[repr(C)]
#[derive(Clone, Copy)]
pub struct Record {
    pub start: u16,
    pub length: u16,
    pub kind: u16,
    pub id: u16,
    pub parent: u16,
}

// The entry of record i, which ends where the next one starts. The caller knows that the record can be read, so nothing is tested.
fn row_at(p: &[u8], starts: &[u16], i: usize) -> Record
    requires { Stands p.now starts.now i }
    ensures { result ≡ row_in p.now starts.now i }
{
    let start = starts[i];
    let end = starts[i + 1];
    Record {
        start,
        length: end - start,
        kind: view::kind_number(p, start),
        id: wire::within::<u16>(p, start as usize + 3),
        parent: view::parent_id(p, start),
    }
}

// Fills the first `count` entries from the pool, by a list of its records' starts. Later entries are left as they were. It requires that
// the table has that many entries and that each record can be read; the promise of the function that made the list shows this. The count
// stands beside the list, and no part of the list alone, since docs/ name this function with both.
pub fn gather(p: &[u8], starts: &[u16], count: usize, table: &mut [Record])
    requires { Fillable p.now starts.now count table.old }
    ensures { table.new ≡ gathered p.now starts.now count table.old }
{
    let filled = &mut table[..count];
    for (i, row) in filled.iter_mut().enumerate() {
        *row = row_at(p, starts, i);
    }
}

// What reading answers, and how many records are listed, with a list that is long enough for every record. It is a parameter of its own for
// the reason that `pool::list_for` gives.
fn read_by(p: &[u8], room: usize, starts: &mut [u16]) -> Counted<Result<usize, Refusal>>
    requires { Reaches starts.old p.now }
    ensures { (answer_of result.answer ≡ read_of p.now room) × (result.records ≡ records_in result.answer) × Listed p.now room starts.new }
{
    let answer = pool::list_for(p, room, starts);
    Counted {
        records: pool::records_of(answer),
        answer,
    }
}

// Reads a pool into the table: lists the records by their starts in one walk over the pool, then fills the table by that list.
pub fn read(p: &[u8], table: &mut [Record]) -> Result<usize, Refusal>
    ensures { (answer_of result ≡ read_of p.now (length table.old)) × (table.new ≡ records_after p.now table.old) }
{
    let room = table.len();
    fill(p, table, |starts| read_by(p, room, starts))
}
