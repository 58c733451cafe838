// Whether a record has no fault, by one look at it, with few branches between its tests. A look may fail to clear a record that has no
// fault, but never clears one that has a fault. Before fields are read, one or two tests make sure that they are within the pool.
ghost use Rattle.std.specs.Prelude.{◌≡◌, true, false, not, ◌||◌, ◌⊎◌, ℕ, ◌+◌, ◌*◌, ◌≤◌, ◌<◌, eqb, ltb, length};
ghost use Rattle.wire.specs.Bytes.{number_in};
ghost use Rattle.records.specs.Layout.{kind_code, mark_code};
ghost use Rattle.views.specs.Fields.{entry_of, process_data_of};
ghost use Rattle.faults.specs.Rows.{AllClear};
ghost use Rattle.naming.specs.Entries.{entries_in};
ghost use Rattle.naming.specs.Records.{id_at};
ghost use Rattle.rules.specs.Table.{bad_source, bad_own, repeats, is_parent_kind, field_rows, presented_rows};
ghost use Rattle.field_rules.specs.Clean.{Apart};
ghost use Rattle.record_breaches.specs.Elements.{pool_of, tag_in};
ghost use Rattle.record_breaches.specs.Others.{records_around, other_rows};

use super::PLACES;
use super::element::ElementRecord;
use super::other::OtherRecord;
use naming::NamedRecords;
use records::Kind;

// Whether the ID of a presentation keeps rules 6 and 7.
fn is_presented(names: &NamedRecords, id: u16) -> bool
    ensures { result ≡ true → AllClear (presented_rows (entries_in names.now.records) id) }
{
    if id == 65535 {
        return true;
    }
    let named = names.named_at(id);
    names.records.is_at(named, Kind::Dvp)
}

// Whether a record that is no device keeps rules 1 and 2. If it is known that every record other than a device has an ID of its own, the
// record is not looked at.
fn is_own(other: &OtherRecord) -> bool
    requires { kind_code other.now.kind ≡ 1 → ⊥ }
    ensures { result ≡ true → not (bad_own (kind_code other.now.kind) (id_at (records_around other.now) other.now.i) || repeats (id_at (records_around other.now)) (id_at (records_around other.now) other.now.i) other.now.i (length (records_around other.now))) ≡ true }
{
    let names = &other.pool.names;
    if names.owned {
        return true;
    }
    let bad = field_rules::is_bad_id(other.kind, names.records.id_at(other.i));
    !(bad | names.repeats_id(other.i))
}

// Whether a record with this kind keeps rule 5, if it is process data: a property has no such rule.
fn is_fit(p: &[u8], at: u16, kind: Kind) -> bool
    ensures { result ≡ (not (eqb (kind_code kind) 3) || not (ltb 7 (process_data_of p.now at).properties || bad_source (process_data_of p.now at).properties || ltb 31 (process_data_of p.now at).triggers)) }
{
    match kind {
        Kind::Dpd => field_rules::is_fit_data(views::process_data(p, at)),
        _ => true,
    }
}

// Process data or a property, whose text begins TEXT bytes behind its start.
fn is_clear_presented<const TEXT: usize>(other: &OtherRecord) -> bool
    requires { ((kind_code other.now.kind ≡ 3) × (TEXT ≡ 9)) ⊎ ((kind_code other.now.kind ≡ 4) × (TEXT ≡ 11)) }
    ensures { result ≡ true → AllClear (other_rows other.now) }
{
    let names = &other.pool.names;
    let p = names.records.pool;
    let at = names.records.starts[other.i];
    let text_at = at as usize + TEXT;
    if p.len() < text_at + 3 {
        return false;
    }
    let to = text_at + 1 + p[text_at] as usize;
    if p.len() < to + 2 {
        return false;
    }
    if !is_own(other) {
        return false;
    }
    if !is_fit(p, at, other.kind) {
        return false;
    }
    if !text::is_sound_in(p, text_at + 1, to) {
        return false;
    }
    is_presented(names, wire::within::<u16>(p, to))
}

// A value presentation.
fn is_clear_value(other: &OtherRecord) -> bool
    requires { kind_code other.now.kind ≡ 5 }
    ensures { result ≡ true → AllClear (other_rows other.now) }
{
    let records = &other.pool.names.records;
    let p = records.pool;
    let at = records.starts[other.i];
    if p.len() < at as usize + 15 {
        return false;
    }
    let own = is_own(other);
    let v = views::value_presentation(p, at);
    (own & field_rules::is_fit_value(v)) & text::is_sound_in(p, v.unit.from, v.unit.to)
}

// A record that is not a device element, by its kind. A device is rare, and not looked at.
pub(crate) fn is_clear_other(other: &OtherRecord) -> bool
    ensures { result ≡ true → AllClear (other_rows other.now) }
{
    match other.kind {
        Kind::Dpd => is_clear_presented::<9>(other),
        Kind::Dpt => is_clear_presented::<11>(other),
        Kind::Dvp => is_clear_value(other),
        Kind::Dvc | Kind::Det => false,
    }
}

// Rules 6, 7 and 12 of a list of entries, which begins at `from`. For each DDI the place of its remainder is stamped with a number that
// differs from that of nearby records. If the stamp is already there, the DDI may be in the list twice, and the walk over the list has to
// decide that. It is a loop, and no `all`: of marks that a closure changes nothing is known afterwards.
fn is_clear_list(element: &ElementRecord, from: usize, seen: &mut [u8; PLACES]) -> bool
    requires { (from + 2 * element.now.fields.entries ≤ length (pool_of element.now)) × ((m : ℕ) → entry_of (pool_of element.now) element.now.at m ≡ number_in 2 (pool_of element.now) (from + 2 * m)) }
    ensures { result ≡ true → Apart (tag_in element.now) element.now.fields.entries }
{
    let names = element.names;
    let stamp = (1 + (element.i + 1) % 255) as u8;
    for m in 0..element.fields.entries as usize {
        let named = names.named_at(wire::within::<u16>(names.records.pool, from + 2 * m));
        let tag = reference_rules::tag_at(&names.records, named);
        let place = tag % PLACES;
        if (tag == 0) | (seen[place] == stamp) {
            return false;
        }
        seen[place] = stamp;
    }
    true
}

// The same for a long list, in which DDIs would often share one of those places: a bit for each of 16,384 remainders, which are different
// for all DDIs below 8,192 and all proprietary ones. The walks differ in what they note: a trait for the two would be longer than both.
fn is_clear_long(element: &ElementRecord, from: usize, noted: &mut [u8; 2048]) -> bool
    requires { (from + 2 * element.now.fields.entries ≤ length (pool_of element.now)) × ((m : ℕ) → entry_of (pool_of element.now) element.now.at m ≡ number_in 2 (pool_of element.now) (from + 2 * m)) }
    ensures { result ≡ true → Apart (tag_in element.now) element.now.fields.entries }
{
    let names = element.names;
    for m in 0..element.fields.entries as usize {
        let named = names.named_at(wire::within::<u16>(names.records.pool, from + 2 * m));
        let tag = reference_rules::tag_at(&names.records, named);
        if tag == 0 {
            return false;
        }
        if marks::note(noted, tag % 16384) {
            return false;
        }
    }
    true
}

// The list of entries of a device element.
fn is_clear_entries(element: &ElementRecord, seen: &mut [u8; PLACES]) -> bool
    ensures { result ≡ true → Apart (tag_in element.now) element.now.fields.entries }
{
    let names = element.names;
    let p = names.records.pool;
    let size = element.fields.entries as usize;
    let from = views::entries_from(p, element.at);
    if p.len() < from + 2 * size {
        return false;
    }
    if 64 < size {
        let mut noted = [0u8; 2048];
        return is_clear_long(element, from, &mut noted);
    }
    is_clear_list(element, from, seen)
}

// A device element, by its fields and its parent's kind.
pub(crate) fn is_clear_element(element: &ElementRecord, seen: &mut [u8; PLACES]) -> bool
    ensures { result ≡ true → AllClear (field_rows (pool_of element.now) element.now.fields) × (is_parent_kind (mark_code element.now.kind) ≡ true) × Apart (tag_in element.now) element.now.fields.entries }
{
    let names = element.names;
    let e = element.fields;
    let sound = text::is_sound_in(names.records.pool, e.designator.from, e.designator.to);
    if !((reference_rules::is_parent(element.kind) & field_rules::is_fit_element(e)) & sound) {
        return false;
    }
    is_clear_entries(element, seen)
}
