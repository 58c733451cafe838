// Texts and labels, over a working table that is a lent slice of records. Reading is in `working_table`, checking in `checker` and
// judging in `commands`.
// Each function has the pool read and checked once, with a list of its records' starts that `working_table` lends. The core answers by
// that list, and `working_table` fills the table by it.
#![tactic(auto)]

ghost use Rattle.std.specs.Prelude.{◌≡◌, length};
ghost use Rattle.wire.specs.Parts.{place_in};
ghost use Rattle.pool.specs.Walk.{Reaches, Listed};
ghost use Rattle.working_table.specs.Table.{records_after};
ghost use Rattle.checker.specs.Checking.{count_of};
ghost use Rattle.queries.specs.Queries.{text_number, text_span, text_of, Finds, Labelled};

use queries::{DeviceLabels, Refusal};
use records::Span;
use working_table::{Counted, Record};

// Finds a text, with a list that is long enough for every record. Only the count of faults matters, so their buffer has room for none. Here
// and below the list is a parameter of its own for the reason that `pool::list_for` gives.
pub fn find_by(p: &[u8], room: usize, starts: &mut [u16], id: u32) -> Counted<Result<Span, Refusal>>
    requires { Reaches starts.old p.now }
    ensures { Finds p.now room id result.answer × (result.records ≡ count_of p.now room) × Listed p.now room starts.new }
{
    let verdict = checker::check_by(p, room, starts, &mut []);
    Counted {
        records: checker::records_of(verdict),
        answer: queries::find_in(p, room, starts, verdict, id),
    }
}

// The place in the pool of the text of the first record with an ID. An empty text has a place, too.
pub fn find_text(p: &[u8], table: &mut [Record], id: u32) -> Result<Span, Refusal>
    ensures { Finds p.now (length table.old) id result × (table.new ≡ records_after p.now table.old) }
{
    let room = table.len();
    working_table::fill(p, table, |starts| find_by(p, room, starts, id))
}

// The text of the first record with an ID, as a slice of the pool that was lent: also where it is empty it points to where the text
// stands, and after a refusal to the pool's start. The number tells a refusal from a text without bytes; it stands beside the slice, in no
// Result, since `query_claims::texts_are_lent` speaks of the slice after a refusal, too.
pub fn text<'a>(p: &'a [u8], table: &mut [Record], id: u32, number: &mut u32) -> &'a [u8]
    ensures { (result.now ≡ text_of p.now (length table.old) id) × (result.ref_ptr ≡ place_in p.entry (text_span p.now (length table.old) id).from) × (number.new ≡ text_number p.now (length table.old) id) × (table.new ≡ records_after p.now table.old) }
{
    match find_text(p, table, id) {
        Ok(span) => queries::text_at(p, span, 0, number),
        Err(refusal) => queries::text_at(p, Span { from: 0, to: 0 }, refusal.into(), number),
    }
}

// The labels, with a list that is long enough for every record. It is `find_by` but for the last call: a function that takes this call as a
// closure, and so asks and promises what the closure does, takes more lines than it saves.
fn labels_by(p: &[u8], room: usize, starts: &mut [u16]) -> Counted<DeviceLabels>
    requires { Reaches starts.old p.now }
    ensures { Labelled p.now room result.answer × (result.records ≡ count_of p.now room) × Listed p.now room starts.new }
{
    let verdict = checker::check_by(p, room, starts, &mut []);
    Counted {
        records: checker::records_of(verdict),
        answer: queries::labels_in(p, room, starts, verdict),
    }
}

// The labels of the device, by value, with the count of the extended label's bytes.
pub fn labels(p: &[u8], table: &mut [Record]) -> DeviceLabels
    ensures { Labelled p.now (length table.old) result × (table.new ≡ records_after p.now table.old) }
{
    let room = table.len();
    working_table::fill(p, table, |starts| labels_by(p, room, starts))
}
