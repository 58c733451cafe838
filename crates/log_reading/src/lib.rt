// Reading log records and logs.
#![tactic(auto)]

ghost use Rattle.std.specs.Prelude.{◌≡◌, ◌+◌, ◌*◌, ◌≤◌, length};
ghost use Rattle.std.proofs.lemmas.List.Edits.{sets};
ghost use Rattle.time_log.specs.Contents.{spaced, signed_from};
ghost use Rattle.log_reading.specs.Reading.{record_of, read_of, ordinals_after, values_after};
ghost use Rattle.log_reading.specs.Logs.{log_answer, log_of};
ghost use Rattle.log_reading.specs.Joined.{LogsAreRecords, LogsAreRefused};
ghost use Rattle.log_reading.specs.Whole.{CutIsForty};
ghost use Rattle.log_reading.specs.Worked.{WorkedRecords};

use time_log::{Fields, Refusal};

// A record that is read: its length, its count of values and its fields.
#[derive(Clone, Copy)]
pub struct Reading {
    pub length: usize,
    pub count: usize,
    pub fields: Fields,
}

// What `lachsbrille_log_read_record` tells C: number 0 with its length, its count of values and its fields, or a refusal with zeros.
#[repr(C)]
#[derive(Clone, Copy)]
pub struct Record {
    pub number: u32,
    pub length: usize,
    pub count: usize,
    pub fields: Fields,
}

impl From<Result<Reading, Refusal>> for Record {
    ghost from_gives = { λ answer told. told ≡ record_of answer };

    fn from(answer: Result<Reading, Refusal>) -> Record {
        match answer {
            Ok(reading) => Record {
                number: 0,
                length: reading.length,
                count: reading.count,
                fields: reading.fields,
            },
            Err(refusal) => Record {
                number: refusal.into(),
                length: 0,
                count: 0,
                fields: Fields::default(),
            },
        }
    }
}

// Takes n pairs of ordinal and value apart, into the first places of the two lists that C lends. By index: of what a `zip` of two
// `iter_mut` leaves in the lists, a proof knows nothing, and a loop for each list would compute each pair's place twice.
fn take_pairs(bytes: &[u8], at: usize, ordinals: &mut [u8], values: &mut [i32], n: usize)
    requires { (n ≤ length ordinals.old) × (n ≤ length values.old) × (n ≤ 255) × (at + 5 * n ≤ length bytes.now) }
    ensures ordinals { ordinals.new ≡ sets ordinals.old 0 (spaced 5 n bytes.now at) }
    ensures values { values.new ≡ sets values.old 0 (signed_from n bytes.now (at + 1)) }
{
    for k in 0..n {
        let pair = at + 5 * k;
        ordinals[k] = bytes[pair];
        values[k] = wire::signed(wire::number(bytes, pair + 1, 4) as u32);
    }
}

// Reads the record that the bytes start with; the bytes after it do not matter.
pub fn read_record(
    bytes: &[u8],
    layout: u32,
    logged: usize,
    ordinals: &mut [u8],
    values: &mut [i32],
) -> Result<Reading, Refusal>
    ensures { (record_of result ≡ read_of layout logged bytes.now (length ordinals.old) (length values.old)) × (ordinals.new ≡ ordinals_after layout logged bytes.now ordinals.old values.old) × (values.new ≡ values_after layout logged bytes.now ordinals.old values.old) }
{
    time_log::judge_layout(layout)?;
    let places = time_log::places_of(layout);
    let count = places.values_in(bytes)?;
    let pairs = places.count() + 1;
    let fields = time_log::fields_of(bytes, &places);
    let over = time_log::any_over(bytes, pairs, count, logged);
    time_log::judge_fields(fields, over)?;
    if (ordinals.len() < count) | (values.len() < count) {
        return Err(Refusal::NoRoom);
    }
    take_pairs(bytes, pairs, ordinals, values, count);
    Ok(Reading {
        length: places.length_with(count),
        count,
        fields,
    })
}

// Why a log is refused, and where the refused record starts.
#[derive(Clone, Copy, Debug, PartialEq, Eq)]
pub struct Refused {
    pub refusal: Refusal,
    pub start: usize,
}

// A bad layout is refused before any record.
impl From<Refusal> for Refused {
    ghost from_gives = { λ refusal refused. refused ≡ record { refusal = refusal; start = 0 } };

    fn from(refusal: Refusal) -> Refused {
        Refused { refusal, start: 0 }
    }
}

// What `lachsbrille_log_read` tells C: number 0 and the count of its records, or a refusal and the start of the refused record.
#[repr(C)]
#[derive(Clone, Copy)]
pub struct Log {
    pub number: u32,
    pub count: usize,
    pub start: usize,
}

impl From<Result<usize, Refused>> for Log {
    ghost from_gives = { λ answer told. told ≡ log_answer answer };

    fn from(answer: Result<usize, Refused>) -> Log {
        match answer {
            Ok(count) => Log {
                number: 0,
                count,
                start: 0,
            },
            Err(refused) => Log {
                number: refused.refusal.into(),
                count: 0,
                start: refused.start,
            },
        }
    }
}

// Counts the records to the end of the bytes.
pub fn read_log(bytes: &[u8], layout: u32, logged: usize) -> Result<usize, Refused>
    ensures { log_answer result ≡ log_of layout logged bytes.now }
{
    time_log::judge_layout(layout)?;
    let places = time_log::places_of(layout);
    let mut rest = bytes;
    let mut count = 0usize;
    // Each record says where the next one starts, so no iterator gives the records.
    'records: while !rest.is_empty() {
        let start = bytes.len() - rest.len();
        match time_log::judge_record(rest, &places, logged) {
            Ok(length) => rest = &rest[length..],
            Err(refusal) => return Err(Refused { refusal, start }),
        }
        count += 1;
    }
    Ok(count)
}

// The functions below do nothing: their contracts are claims, so that the report names them.

// A log is read exactly if it consists of records joined back to back.
pub fn logs_are_records()
    ensures { LogsAreRecords }
{}

// A log is refused exactly if whole records are followed by a bad record or by bytes that end inside one, or if its layout is bad.
pub fn logs_are_refused()
    ensures { LogsAreRefused }
{}

// 40 is given exactly if more bytes would make the record whole.
pub fn cut_is_forty()
    ensures { CutIsForty }
{}

// Worked records are read as they should be, and the limits are exact.
pub fn worked_records_hold()
    ensures { WorkedRecords }
{}
