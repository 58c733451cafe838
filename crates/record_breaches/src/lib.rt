// The breaches of one record, written to a fault buffer in the order of rules and items. Most records have none: for these one look
// is usually enough.
#![tactic(auto)]

mod element;
mod look;
mod other;

ghost use Rattle.std.specs.Prelude.{◌≡◌, ◌+◌, ◌<◌, ◌^◌};
ghost use Rattle.faults.specs.Adding.{Adds};
ghost use Rattle.record_breaches.specs.Elements.{repeats_number, never_ends, rows_of};
ghost use Rattle.record_breaches.specs.Others.{other_rows};

pub use element::ElementRecord;
use faults::FaultList;
pub use other::OtherRecord;
use records::Kind;

// How many remainders of DDIs a look at a list of entries tells apart.
pub const PLACES: usize = 1024;

// Every fault of a record that is not a device element.
pub fn put_other(other: &OtherRecord, faults: &mut FaultList)
    requires { faults.old.count < 2 ^ 37 }
    ensures { Adds (other.now.i + 1) (other_rows other.now) 98313 faults.old faults.new }
{
    if look::is_clear_other(other) {
        return;
    }
    let names = &other.pool.names;
    let bad = field_rules::is_bad_id(other.kind, names.records.id_at(other.i));
    let again = names.repeats_id(other.i);
    other.put_faults(bad, again, faults);
}

// Every fault of a device element; again and endless say whether it breaks rule 8 and rule 9. They are two parameters: a struct for them
// would be made in one place and taken apart in the next.
pub fn put_element(
    element: &ElementRecord,
    again: bool,
    endless: bool,
    seen: &mut [u8; PLACES],
    faults: &mut FaultList,
)
    requires { (again ≡ repeats_number element.now) × (endless ≡ never_ends element.now) × (faults.old.count < 2 ^ 37) }
    ensures { Adds (element.now.i + 1) (rows_of element.now) 98313 faults.old faults.new }
{
    let names = element.names;
    let bad = field_rules::is_bad_id(Kind::Det, names.records.id_at(element.i));
    let twice = names.repeats_id(element.i);
    let faulty = (bad | twice) | (again | endless);
    if !faulty && look::is_clear_element(element, seen) {
        return;
    }
    element.put_faults(bad, twice, again, endless, faults);
}
