// A device element of a pool, and its faults, rule by rule.
ghost use Rattle.std.specs.Prelude.{◌≡◌, ◌+◌, ◌≤◌, ◌<◌, ◌^◌, length};
ghost use Rattle.records.specs.Layout.{mark_code};
ghost use Rattle.views.specs.Fields.{element_of};
ghost use Rattle.faults.specs.Adding.{Adds};
ghost use Rattle.naming.specs.Entries.{entries_in};
ghost use Rattle.naming.specs.Records.{start_at, id_at, kind_at};
ghost use Rattle.naming.specs.Naming.{named, kind_of};
ghost use Rattle.rules.specs.Table.{bad_own, repeats};

use faults::FaultList;
use naming::NamedRecords;
use records::{DeviceElement, Kind};

// Record i, which starts at `at` and is a device element with these fields. Its parent is given by record number and by kind.
#[derive(Clone, Copy)]
pub struct ElementRecord<'a> {
    pub names: &'a NamedRecords<'a>,
    pub i: usize,
    pub at: u16,
    pub fields: DeviceElement,
    // 0 for none, and no `Option`: the lists by ID give the number so, and rule 6 asks whether it is 0.
    pub parent: u16,
    pub kind: Option<Kind>,
    pub ghost listed: { i + 1 < length names.now.records.starts.now },
    pub ghost is_element: { kind_at (entries_in names.now.records) i ≡ 2 },
    pub ghost starts: { at ≡ start_at (entries_in names.now.records) i },
    pub ghost read: { fields ≡ element_of names.now.records.pool.now at },
    pub ghost parent_named: { parent ≡ named (entries_in names.now.records) fields.parent },
    pub ghost kind_told: { mark_code kind ≡ kind_of (entries_in names.now.records) parent },
}

impl<'a> ElementRecord<'a> {
    ghost use Rattle.record_breaches.specs.Elements.{around, repeats_number, never_ends, rows_of};

    // Record i, which is a device element.
    pub fn new(names: &'a NamedRecords<'a>, i: usize) -> Self
        requires { (i + 1 < length names.now.records.starts.now) × (kind_at (entries_in names.now.records) i ≡ 2) }
        ensures { (result.names ≡ names.entry) × (result.i ≡ i) }
    {
        let at = names.records.starts[i];
        let fields = views::device_element(names.records.pool, at);
        let parent = names.named_at(fields.parent);
        let kind = names.records.kind_at(parent);
        ElementRecord {
            names,
            i,
            at,
            fields,
            parent,
            kind,
        }
    }

    // Every fault, in the order of the rules; bad, twice, again and endless say whether the record breaks rules 1, 2, 8 and 9.
    fn put_rules(&self, bad: bool, twice: bool, again: bool, endless: bool, faults: &mut FaultList)
        requires { (bad ≡ bad_own 2 (id_at (around self.now) self.now.i)) × (twice ≡ repeats (id_at (around self.now)) (id_at (around self.now) self.now.i) self.now.i (length (around self.now))) × (again ≡ repeats_number self.now) × (endless ≡ never_ends self.now) × (faults.old.count < 2 ^ 37) }
        ensures { Adds (self.now.i + 1) (rows_of self.now) 98313 faults.old faults.new }
    {
        let names = self.names;
        let number = (self.i + 1) as u16;
        let size = self.fields.entries as usize;
        field_rules::put_own(bad, twice, number, faults);
        field_rules::put_fields(names.records.pool, self.fields, number, faults);
        reference_rules::put_references(
            names,
            self.at,
            self.parent,
            size,
            again,
            endless,
            number,
            faults,
        );
    }

    // The same, with a list of its own, which the compiler keeps in registers: behind the reference the count would be read again for each
    // fault. This function is kept from being inlined: the lists of the walk over a long list of entries take stack only where an element
    // has a fault.
    #[inline(never)]
    pub(crate) fn put_faults(
        &self,
        bad: bool,
        twice: bool,
        again: bool,
        endless: bool,
        faults: &mut FaultList,
    )
        requires { (bad ≡ bad_own 2 (id_at (around self.now) self.now.i)) × (twice ≡ repeats (id_at (around self.now)) (id_at (around self.now) self.now.i) self.now.i (length (around self.now))) × (again ≡ repeats_number self.now) × (endless ≡ never_ends self.now) × (faults.old.count < 2 ^ 37) }
        ensures { Adds (self.now.i + 1) (rows_of self.now) 98313 faults.old faults.new }
    {
        let mut own = FaultList {
            buffer: &mut *faults.buffer,
            count: faults.count,
        };
        self.put_rules(bad, twice, again, endless, &mut own);
        faults.count = own.count;
    }
}
