// Queries of an accepted pool: a record's text by its ID, and the labels of the device. The pool has been checked, for a table of
// `room` entries.
#![tactic(auto)]

ghost use Rattle.std.specs.Prelude.{◌≡◌, ◌≤◌, length};
ghost use Rattle.wire.specs.Parts.{place_in};
ghost use Rattle.records.specs.Layout.{mark_code, mark_of, three};
ghost use Rattle.views.specs.Fields.{part_of, start_in, device_of};
ghost use Rattle.naming.specs.Entries.{entries_in};
ghost use Rattle.queries.specs.Queries.{refusal_number, asked_text, carrier, Finds, Labelled};
ghost use Rattle.queries.specs.declared.Refusal.TheVariants.{Unread};
ghost use Rattle.queries.specs.Parts.{Accepts, numbered, FindsAmong, CheckedBy, LabelledBy};

use checker::Checked;
use naming::RecordList;
use records::{Kind, Span};

// Why a query is refused: the pool can't be read, or it has a fault, or no record has the ID that is asked for.
#[derive(Clone, Copy)]
pub enum Refusal {
    Unread(pool::Refusal),
    Faulty,
    NoRecord,
}

impl From<pool::Refusal> for Refusal {
    ghost from_gives = { λ unread refusal. refusal ≡ Unread unread };

    fn from(unread: pool::Refusal) -> Refusal {
        Refusal::Unread(unread)
    }
}

// Document 01's number for a refusal.
impl From<Refusal> for u32 {
    ghost from_gives = { λ refusal number. number ≡ refusal_number refusal };

    fn from(refusal: Refusal) -> u32 {
        match refusal {
            Refusal::Unread(unread) => unread.into(),
            Refusal::Faulty => 24,
            Refusal::NoRecord => 28,
        }
    }
}

// The labels of the device, or the number of a refusal with zeros: `lachsbrille_labels` returns it to C by value, so it is no Result.
#[repr(C)]
#[derive(Clone, Copy)]
pub struct DeviceLabels {
    pub number: u32,
    pub structure: [u8; 7],
    pub localization: [u8; 7],
    pub extended: [u8; 32],
    pub extended_length: u16,
}

// The count of records of a pool that has been checked, or why it is not accepted.
pub fn accept(verdict: Result<Checked, pool::Refusal>) -> Result<usize, Refusal>
    ensures { Accepts verdict result }
{
    let checked = verdict?;
    if checked.faults != 0 {
        return Err(Refusal::Faulty);
    }
    Ok(checked.records)
}

// The first record with an ID, counted from 0.
fn first_with(records: &RecordList, id: u32) -> Option<usize>
    ensures { numbered result ≡ carrier (entries_in records.now) id }
{
    (0..records.starts.len() - 1).position(|i| records.id_at(i) as u32 == id)
}

// The designator of the record at a place, or the unit text of a value presentation.
fn text_in(p: &[u8], at: u16) -> Span
    ensures { result ≡ asked_text p.now (mark_code (mark_of (three p.now at))) at }
{
    match records::view::mark(p, at) {
        Some(Kind::Dvc) => views::device(p, at).designator,
        Some(Kind::Det) => views::device_element(p, at).designator,
        Some(Kind::Dpd) => views::process_data(p, at).designator,
        Some(Kind::Dpt) => views::property(p, at).designator,
        Some(Kind::Dvp) => views::value_presentation(p, at).unit,
        None => Span { from: 0, to: 0 },
    }
}

// Finds a text among the records of a pool. Its place lies within the pool, also if the text is empty.
fn find_among(records: &RecordList, id: u32) -> Result<Span, Refusal>
    ensures { FindsAmong records.now.pool.now (entries_in records.now) id result }
{
    match first_with(records, id) {
        Some(i) => Ok(text_in(records.pool, records.starts[i])),
        None => Err(Refusal::NoRecord),
    }
}

// Finds a text in a pool that has been checked, by the list of records that the check has made. It is not an entry point, so it may
// require that the verdict and the list belong to the pool.
pub fn find_in(
    p: &[u8],
    room: usize,
    starts: &[u16],
    verdict: Result<Checked, pool::Refusal>,
    id: u32,
) -> Result<Span, Refusal>
    requires { CheckedBy p.now room starts.now verdict }
    ensures { Finds p.now room id result }
{
    let count = accept(verdict)?;
    let records = RecordList {
        pool: p,
        starts: &starts[..=count],
    };
    find_among(&records, id)
}

// The text at a place, as a slice of the pool. A number is handed on beside it, and no Result: docs/ name this function, which takes any
// number and any span, since the slice is at a place after a refusal, too.
pub fn text_at<'a>(p: &'a [u8], span: Span, told: u32, number: &mut u32) -> &'a [u8]
    ensures { (result.now ≡ part_of p.now span) × (number.new ≡ told) × (result.ref_ptr ≡ place_in p.entry (start_in p.now span)) }
{
    *number = told;
    views::part(p, span)
}

// The labels of the device that starts at a place.
fn labels_at(p: &[u8], at: u16) -> DeviceLabels
    requires { length (part_of p.now (device_of p.now at).extended) ≤ 32 }
    ensures { LabelledBy p.now (device_of p.now at) result }
{
    let device = views::device(p, at);
    let mut structure = [0u8; 7];
    wire::copy(views::part(p, device.structure), &mut structure, 0);
    let mut localization = [0u8; 7];
    wire::copy(views::part(p, device.localization), &mut localization, 0);
    let text = views::part(p, device.extended);
    let mut extended = [0u8; 32];
    wire::copy(text, &mut extended, 0);
    DeviceLabels {
        number: 0,
        structure,
        localization,
        extended,
        extended_length: text.len() as u16,
    }
}

// The labels, by value, with the count of the extended label's bytes; the list of records is that of the check, as for a text. An
// accepted pool has a device, so its absence is not tested.
pub fn labels_in(
    p: &[u8],
    room: usize,
    starts: &[u16],
    verdict: Result<Checked, pool::Refusal>,
) -> DeviceLabels
    requires { CheckedBy p.now room starts.now verdict }
    ensures { Labelled p.now room result }
{
    match accept(verdict) {
        Ok(count) => {
            let records = RecordList {
                pool: p,
                starts: &starts[..=count],
            };
            let device = field_rules::whole::first_device(&records) as usize;
            labels_at(p, starts[device - 1])
        }
        Err(refusal) => DeviceLabels {
            number: refusal.into(),
            structure: [0u8; 7],
            localization: [0u8; 7],
            extended: [0u8; 32],
            extended_length: 0,
        },
    }
}
