// Which chains of parents never end, and which device elements repeat an element number. Both depend on many records, so they are found
// for all records at once and marked by record number. Marks are blank before and set afterwards, so each function asks that they are
// blank, and no type has it as a ghost fact.
#![tactic(auto)]

ghost use Rattle.std.specs.Prelude.{◌≡◌, false, not, ◌&&◌, ℕ, suc, ◌+◌, ◌-◌, ◌*◌, ◌≤◌, ◌<◌, eqb, length, get_or};
ghost use Rattle.marks.specs.Bits.{bit_at};
ghost use Rattle.naming.specs.Records.{kind_at};
ghost use Rattle.naming.specs.Naming.{parent_of, climb};
ghost use Rattle.naming.specs.Entries.{entries_in};
ghost use Rattle.naming.specs.Lists.{Blank};
ghost use Rattle.rules.specs.Table.{repeats, element_key};
ghost use Rattle.chains.specs.Steps.{Climbs, Doubles, Closed, Ended};
ghost use Rattle.chains.specs.Noted.{Noted};

use naming::{NamedRecords, RecordList};
use pool::LONG_LIST;
use records::Kind;

// Stores for each record, by its number, where one or more steps up its chain of parents lead: to the parent or, if the parent comes
// before the record, to where the parent's own steps lead. Returns whether there is a chain that has not ended.
fn parents(names: &NamedRecords, ups: &mut [u16]) -> bool
    requires { (length ups.old ≡ length names.now.records.starts.now) × Blank ups.old }
    ensures { Climbs (parent_of names.now.records.pool.now (entries_in names.now.records)) (length (entries_in names.now.records)) 1 ups.new × (result ≡ false → (r : ℕ) → r ≤ length (entries_in names.now.records) → get_or ups.new r 0 ≡ 0) }
{
    let mut left = false;
    // By index: a step may read another place of the list that it changes, which no iterator lends.
    for r in 1..ups.len() {
        let mut up = names.parent_at(r as u16);
        if (up as usize) < r {
            up = ups[up as usize];
        }
        ups[r] = up;
        left = left | (up != 0);
    }
    left
}

// Extends the steps of each record by those from where they lead, which at least doubles them. It goes from the last record to the first,
// so that a chain whose parents come after their children is climbed in one round. Returns whether a chain has ended in this round.
fn jump(ups: &mut [u16]) -> bool
    requires { (0 < length ups.old) × (length ups.old ≤ 8192) × (get_or ups.old 0 0 ≡ 0) × ((r : ℕ) → r ≤ length ups.old - 1 → get_or ups.old r 0 ≤ length ups.old - 1) }
    ensures { Doubles (length ups.old - 1) ups.old ups.new × (result ≡ false → Closed (length ups.old - 1) ups.old × ((r : ℕ) → r ≤ length ups.old - 1 → get_or ups.old r 0 ≡ 0 → get_or ups.new r 0 ≡ 0)) }
{
    let mut ended = false;
    // By index: each step reads another place of the list that it changes, which no iterator lends.
    for r in (1..ups.len()).rev() {
        let up = ups[r];
        let next = ups[up as usize];
        ups[r] = next;
        ended = ended | ((up != 0) & (next == 0));
    }
    ended
}

// Finds for every record whether its chain of parents ends. After a round in which no chain has ended, none will. The steps double with
// each round, which no range counts.
fn chains(names: &NamedRecords, ups: &mut [u16])
    requires { (length ups.old ≡ length names.now.records.starts.now) × Blank ups.old }
    ensures { Ended names.now.records.pool.now (entries_in names.now.records) ups.new }
{
    if !parents(names, ups) {
        return;
    }
    let count = ups.len() - 1;
    let mut steps: usize = 1;
    while steps < count {
        if !jump(ups) {
            return;
        }
        steps *= 2;
    }
}

// Marks the numbers for which `left` does not have 0.
fn mark_left(left: &[u16], marks: &mut [u8])
    requires { Blank marks.old × (length left.now ≤ 8 * length marks.old) }
    ensures { (i : ℕ) → i < length left.now → bit_at marks.new i ≡ not (eqb (get_or left.now i 0) 0) }
{
    for (i, up) in left.iter().enumerate() {
        let is_left = *up != 0;
        if is_left {
            marks::mark(marks, i);
        }
    }
}

// Rule 9: marks the records whose chains of parents do not end.
pub fn mark_endless(names: &NamedRecords, marks: &mut [u8])
    requires { Blank marks.old × (length names.now.records.starts.now ≤ 8 * length marks.old) }
    ensures { (i : ℕ) → suc i < length names.now.records.starts.now → bit_at marks.new i ≡ not (eqb (climb (parent_of names.now.records.pool.now (entries_in names.now.records)) (length (entries_in names.now.records)) (suc i)) 0) }
{
    let mut room = [0u16; LONG_LIST];
    let ups = &mut room[..names.records.starts.len()];
    chains(names, ups);
    mark_left(&ups[1..], marks);
}

// Whether record i is a device element with the element number of an earlier one. Marks its element number.
fn repeats_number(records: &RecordList, i: usize, numbers: &mut [u8]) -> bool
    requires { (i + 1 < length records.now.starts.now) × (65536 ≤ 8 * length numbers.old) × Noted 65536 (element_key records.now.pool.now (entries_in records.now)) i numbers.old }
    ensures { (result ≡ (eqb (kind_at (entries_in records.now) i) 2 && repeats (element_key records.now.pool.now (entries_in records.now)) (element_key records.now.pool.now (entries_in records.now) i) i (length (entries_in records.now)))) × Noted 65536 (element_key records.now.pool.now (entries_in records.now)) (i + 1) numbers.new }
{
    match records.record_kind(i) {
        Kind::Det => {
            let element = views::device_element(records.pool, records.starts[i]);
            marks::note(numbers, element.number as usize)
        }
        _ => false,
    }
}

// Marks the records that repeat an element number, with a list of marks for all element numbers.
fn mark_numbers(records: &RecordList, numbers: &mut [u8], marks: &mut [u8])
    requires { (65536 ≤ 8 * length numbers.old) × Blank numbers.old × Blank marks.old × (length records.now.starts.now ≤ 8 * length marks.old) }
    ensures { (i : ℕ) → suc i < length records.now.starts.now → kind_at (entries_in records.now) i ≡ 2 → bit_at marks.new i ≡ repeats (element_key records.now.pool.now (entries_in records.now)) (element_key records.now.pool.now (entries_in records.now) i) i (length (entries_in records.now)) }
{
    for i in 0..records.starts.len() - 1 {
        if repeats_number(records, i, numbers) {
            marks::mark(marks, i);
        }
    }
}

// Rule 8: marks the device elements whose element number an earlier one has.
pub fn mark_repeats(records: &RecordList, marks: &mut [u8])
    requires { Blank marks.old × (length records.now.starts.now ≤ 8 * length marks.old) }
    ensures { (i : ℕ) → suc i < length records.now.starts.now → kind_at (entries_in records.now) i ≡ 2 → bit_at marks.new i ≡ repeats (element_key records.now.pool.now (entries_in records.now)) (element_key records.now.pool.now (entries_in records.now) i) i (length (entries_in records.now)) }
{
    let mut numbers = [0u8; 8192];
    mark_numbers(records, &mut numbers, marks);
}
