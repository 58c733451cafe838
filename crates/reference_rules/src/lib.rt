// The rules about what a device element refers to: its parent and its list of entries.
#![tactic(auto)]

mod doubles;
mod entries;
mod links;

ghost use Rattle.std.specs.Prelude.{◌≡◌, true, false, [], ◌∷◌, ◌++◌, ℕ, ◌+◌, ◌≤◌, ◌<◌, ◌^◌, eqb, length};
ghost use Rattle.records.specs.Layout.{mark_code};
ghost use Rattle.faults.specs.Rows.{one, many};
ghost use Rattle.faults.specs.Adding.{Adds};
ghost use Rattle.naming.specs.Naming.{is_data_kind, kind_of, ddi_of, tag_of};
ghost use Rattle.naming.specs.Entries.{entries_in};
ghost use Rattle.rules.specs.Table.{is_parent_kind, is_wrong_kind, doubled, entry_named, reference_rows, list_rows};
ghost use Rattle.reference_rules.specs.Entries.{named_in, wrong_in, tag_in};

use entries::EntryList;
use faults::FaultList;
use naming::{NamedRecords, RecordList};
use records::Kind;

// Whether a device element may have a record of this kind for its parent.
pub fn is_parent(kind: Option<Kind>) -> bool
    ensures { result ≡ is_parent_kind (mark_code kind) }
{
    matches!(kind, Some(Kind::Dvc | Kind::Det))
}

// The DDI of process data or a property, by the record's number.
fn ddi_at(records: &RecordList, number: u16) -> u16
    requires { (number ≡ 0 → ⊥) × (number < length records.now.starts.now) }
    ensures { result ≡ ddi_of records.now.pool.now (entries_in records.now) number }
{
    wire::within::<u16>(
        records.pool,
        records.starts[number as usize - 1] as usize + 5,
    )
}

// The tag of the record with a number: its DDI plus 1 if it is process data or a property, else 0. It is one number, and no `Option`, so
// that one comparison tells it from another record's.
pub fn tag_at(records: &RecordList, number: u16) -> usize
    requires { number < length records.now.starts.now }
    ensures { (result ≡ tag_of records.now.pool.now (entries_in records.now) number) × (result ≤ 65536) }
{
    if records.is_data_at(number) {
        return 1 + ddi_at(records, number) as usize;
    }
    0
}

fn is_wrong_parent(records: &RecordList, parent: u16) -> bool
    requires { parent < length records.now.starts.now }
    ensures { result ≡ is_wrong_kind (is_parent_kind (kind_of (entries_in records.now) parent)) parent }
{
    (parent != 0) & !is_parent(records.kind_at(parent))
}

fn is_wrong_entry(records: &RecordList, named: u16) -> bool
    requires { named < length records.now.starts.now }
    ensures { result ≡ is_wrong_kind (is_data_kind (kind_of (entries_in records.now) named)) named }
{
    (named != 0) & !records.is_data_at(named)
}

// What a walk over the entries has found: whether an entry names a record of a wrong kind, and how many entries name process data or a
// property.
#[derive(Clone, Copy)]
struct Looked {
    wrong: bool,
    tagged: usize,
}

// Rule 6 of the entries.
fn put_missing(list: &EntryList, number: u16, faults: &mut FaultList) -> Looked
    requires { faults.old.count < 2 ^ 41 }
    ensures { Adds number (many 6 2 list.now.size (λ (m : ℕ). eqb (named_in list.now m) 0) ∷ []) list.now.size faults.old faults.new × (result.wrong ≡ false → (m : ℕ) → m < list.now.size → wrong_in list.now m ≡ false) × (result.tagged < 2 → (m : ℕ) → m < list.now.size → doubled (tag_in list.now) m ≡ false) }
{
    let mut wrong = false;
    let mut tagged: usize = 0;
    for m in 0..list.size {
        let named = list.named_at(m);
        faults.put_if(named == 0, number, 6, (2 + m) as u16);
        if list.names.records.is_data_at(named) {
            tagged += 1;
        } else {
            wrong = wrong | (named != 0);
        }
    }
    Looked { wrong, tagged }
}

// Rule 7 of the entries, unless it is known that none breaks it.
fn put_wrong(wrong: bool, list: &EntryList, number: u16, faults: &mut FaultList)
    requires { (wrong ≡ false → (m : ℕ) → m < list.now.size → wrong_in list.now m ≡ false) × (faults.old.count < 2 ^ 41) }
    ensures { Adds number (many 7 2 list.now.size (wrong_in list.now) ∷ []) list.now.size faults.old faults.new }
{
    if !wrong {
        return;
    }
    for m in 0..list.size {
        let hit = is_wrong_entry(&list.names.records, list.named_at(m));
        faults.put_if(hit, number, 7, (2 + m) as u16);
    }
}

// Rules 8 and 9 of a device element.
fn put_numbered(again: bool, endless: bool, number: u16, faults: &mut FaultList)
    requires { faults.old.count < 2 ^ 41 }
    ensures { Adds number (one 8 1 again ∷ one 9 1 endless ∷ []) 2 faults.old faults.new }
{
    faults.put_if(again, number, 8, 1);
    faults.put_if(endless, number, 9, 1);
}

// Rules 6 to 9 and 12 of a device element. All faults of rule 6 come before those of rule 7.
pub fn put_references(
    names: &NamedRecords,
    at: u16,
    parent: u16,
    size: usize,
    again: bool,
    endless: bool,
    number: u16,
    faults: &mut FaultList,
)
    requires { (parent < length names.now.records.starts.now) × (size ≤ 32768) × (faults.old.count < 2 ^ 40) }
    ensures { Adds number (reference_rows (kind_of (entries_in names.now.records)) parent (entry_named names.now.records.pool.now (entries_in names.now.records) at) size ++ list_rows again endless (λ (m : ℕ). tag_of names.now.records.pool.now (entries_in names.now.records) (entry_named names.now.records.pool.now (entries_in names.now.records) at m)) size) (4 + size + size + size) faults.old faults.new }
{
    let list = EntryList {
        names: *names,
        at,
        from: views::entries_from(names.records.pool, at),
        size,
    };
    faults.put_if(parent == 0, number, 6, 1);
    let looked = put_missing(&list, number, faults);
    let wrong = is_wrong_parent(&names.records, parent);
    faults.put_if(wrong, number, 7, 1);
    put_wrong(looked.wrong, &list, number, faults);
    put_numbered(again, endless, number, faults);
    doubles::put_doubled(looked.tagged, &list, number, faults);
}
