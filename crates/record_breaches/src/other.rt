// The faults of a record that is not a device element, rule by rule, by its kind.
ghost use Rattle.std.specs.Prelude.{◌≡◌, ◌++◌, ◌+◌, ◌≤◌, ◌<◌, ◌^◌, length};
ghost use Rattle.records.specs.Layout.{kind_code};
ghost use Rattle.views.specs.Fields.{device_of, process_data_of, property_of};
ghost use Rattle.faults.specs.Adding.{Adds};
ghost use Rattle.naming.specs.Entries.{entries_in};
ghost use Rattle.naming.specs.Records.{id_at, kind_at};
ghost use Rattle.rules.specs.Table.{bad_own, repeats, presented_rows, device_rows, data_rows, property_rows, kind_rows};

use faults::FaultList;
use field_rules::whole::NamedPool;
use naming::NamedRecords;
use records::Kind;

// Record i of a pool, of this kind, which is not a device element.
#[derive(Clone, Copy)]
pub struct OtherRecord<'a> {
    pub pool: &'a NamedPool<'a>,
    pub i: usize,
    pub kind: Kind,
    pub ghost listed: { i + 1 < length pool.now.names.records.starts.now },
    pub ghost told: { kind_code kind ≡ kind_at (entries_in pool.now.names.records) i },
    pub ghost no_element: { kind_code kind ≡ 2 → ⊥ },
}

// Rules 6 and 7 of the presentation of process data or of a property.
fn put_presented(names: &NamedRecords, id: u16, number: u16, faults: &mut FaultList)
    requires { faults.old.count < 2 ^ 40 }
    ensures { Adds number (presented_rows (entries_in names.now.records) id) 2 faults.old faults.new }
{
    let named = names.named_at(id);
    let kind = names.records.kind_at(named);
    field_rules::put_presentation(id, named, kind, number, faults);
}

// A device, which starts at `at`; second says whether another one comes before it.
fn put_device(p: &[u8], at: u16, second: bool, number: u16, faults: &mut FaultList)
    requires { faults.old.count < 2 ^ 38 }
    ensures { Adds number (device_rows p.now second (device_of p.now at)) 18 faults.old faults.new }
{
    field_rules::put_device(p, views::device(p, at), second, number, faults);
}

// Process data, by its own rules and its presentation's. `put_property` differs in the view, its fields and its rows: a trait for the two
// would be longer than both.
fn put_data(names: &NamedRecords, at: u16, number: u16, faults: &mut FaultList)
    requires { faults.old.count < 2 ^ 39 }
    ensures { Adds number (data_rows names.now.records.pool.now (process_data_of names.now.records.pool.now at) ++ presented_rows (entries_in names.now.records) (process_data_of names.now.records.pool.now at).presentation) 6 faults.old faults.new }
{
    let d = views::process_data(names.records.pool, at);
    let presentation = d.presentation;
    field_rules::put_data(names.records.pool, d, number, faults);
    put_presented(names, presentation, number, faults);
}

fn put_property(names: &NamedRecords, at: u16, number: u16, faults: &mut FaultList)
    requires { faults.old.count < 2 ^ 39 }
    ensures { Adds number (property_rows names.now.records.pool.now (property_of names.now.records.pool.now at) ++ presented_rows (entries_in names.now.records) (property_of names.now.records.pool.now at).presentation) 3 faults.old faults.new }
{
    let d = views::property(names.records.pool, at);
    let presentation = d.presentation;
    field_rules::put_property(names.records.pool, d, number, faults);
    put_presented(names, presentation, number, faults);
}

impl OtherRecord<'_> {
    ghost use Rattle.record_breaches.specs.Others.{pool_around, records_around, other_rows};

    // The rules of the record's kind.
    fn put_kind(&self, faults: &mut FaultList)
        requires { faults.old.count < 2 ^ 38 }
        ensures { Adds (self.now.i + 1) (kind_rows (pool_around self.now) (records_around self.now) self.now.i (kind_code self.now.kind)) 18 faults.old faults.new }
    {
        let names = &self.pool.names;
        let p = names.records.pool;
        let at = names.records.starts[self.i];
        let number = (self.i + 1) as u16;
        match self.kind {
            Kind::Dvc => put_device(p, at, self.pool.device != number, number, faults),
            Kind::Det => {}
            Kind::Dpd => put_data(names, at, number, faults),
            Kind::Dpt => put_property(names, at, number, faults),
            Kind::Dvp => field_rules::put_value(
                p,
                views::value_presentation(p, at),
                number,
                faults,
            ),
        }
    }

    // Every fault; bad and again say whether it breaks rules 1 and 2.
    pub(crate) fn put_faults(&self, bad: bool, again: bool, faults: &mut FaultList)
        requires { (bad ≡ bad_own (kind_code self.now.kind) (id_at (records_around self.now) self.now.i)) × (again ≡ repeats (id_at (records_around self.now)) (id_at (records_around self.now) self.now.i) self.now.i (length (records_around self.now))) × (faults.old.count < 2 ^ 37) }
        ensures { Adds (self.now.i + 1) (other_rows self.now) 98313 faults.old faults.new }
    {
        field_rules::put_own(bad, again, (self.i + 1) as u16, faults);
        self.put_kind(faults);
    }
}
