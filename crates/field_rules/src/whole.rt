// The rules about the pool as a whole: whether it has a device, and a device element of type 1.
ghost use Rattle.std.specs.Prelude.{◌≡◌, cond, eqb, length};
ghost use Rattle.std.specs.List.{position, list_any};
ghost use Rattle.records.specs.Layout.{mark_code, mark_of, three};
ghost use Rattle.views.specs.Fields.{element_of};
ghost use Rattle.faults.specs.Adding.{Adds};
ghost use Rattle.naming.specs.Records.{kind_at};
ghost use Rattle.naming.specs.Naming.{first_of, type_key};
ghost use Rattle.naming.specs.Entries.{entries_in};
ghost use Rattle.rules.specs.Table.{pool_rows};

use faults::FaultList;
use naming::{NamedRecords, RecordList};
use records::Kind;

// The first of these places at which a device starts, by its index.
fn device_among(p: &[u8], places: &[u16]) -> Option<usize>
    ensures { result ≡ position (λ at. eqb (mark_code (mark_of (three p.now at))) 1) places.now }
{
    places.iter().position(|at| matches!(records::view::mark(p, *at), Some(Kind::Dvc)))
}

// The number of the first device, 0 for none. It is no `Option`: as with every number of a record, rule 3 compares it with a record's own,
// rule 10 with 0.
pub fn first_device(records: &RecordList) -> u16
    ensures { result ≡ first_of (kind_at (entries_in records.now)) 1 (length (entries_in records.now)) }
{
    let places = &records.starts[..records.starts.len() - 1];
    device_among(records.pool, places).map_or(0, |i| (i + 1) as u16)
}

// A pool whose IDs have been listed, with the number of its first device, 0 for none as `first_device` gives it.
#[derive(Clone, Copy)]
pub struct NamedPool<'a> {
    pub names: NamedRecords<'a>,
    pub device: u16,
    pub ghost first: { device ≡ first_of (kind_at (entries_in names.records)) 1 (length (entries_in names.records)) },
}

impl<'a> NamedPool<'a> {
    pub fn new(names: NamedRecords<'a>) -> Self
        ensures { result.names ≡ names.entry }
    {
        let device = first_device(&names.records);
        NamedPool { names, device }
    }
}

// Whether the record that starts at a place is a device element of type 1.
fn is_machine(p: &[u8], at: u16) -> bool
    ensures { result ≡ eqb (cond (eqb (mark_code (mark_of (three p.now at))) 2) (element_of p.now at).element_type 256) 1 }
{
    match records::view::mark(p, at) {
        Some(Kind::Det) => views::device_element(p, at).element_type == 1,
        _ => false,
    }
}

// Whether a device element of type 1 starts at one of these places.
fn machine_among(p: &[u8], places: &[u16]) -> bool
    ensures { result ≡ list_any (λ at. eqb (cond (eqb (mark_code (mark_of (three p.now at))) 2) (element_of p.now at).element_type 256) 1) places.now }
{
    places.iter().any(|at| is_machine(p, *at))
}

// Whether no record is a device element of type 1.
fn lacks_machine(records: &RecordList) -> bool
    ensures { result ≡ eqb (first_of (type_key records.now.pool.now (entries_in records.now)) 1 (length (entries_in records.now))) 0 }
{
    let places = &records.starts[..records.starts.len() - 1];
    !machine_among(records.pool, places)
}

// Rules 10 and 11, of the whole pool: the faults of a pool begin with these. They take the records and the first device, and no
// `NamedPool`, which asks for the lists by ID besides.
pub fn put_pool<'a>(records: &RecordList, device: u16, buffer: &'a mut [u16]) -> FaultList<'a>
    requires { device ≡ first_of (kind_at (entries_in records.now)) 1 (length (entries_in records.now)) }
    ensures { Adds 0 (pool_rows records.now.pool.now (entries_in records.now)) 2 (record { buffer = buffer.entry; count = 0 }) result }
{
    let mut faults = FaultList { buffer, count: 0 };
    faults.put_if(device == 0, 0, 10, 1);
    faults.put_if(lacks_machine(records), 0, 11, 1);
    faults
}
