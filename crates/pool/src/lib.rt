// Reading a pool: whether it divides into records, and where these start. `list_for` needs a list that is long enough for all records.
#![tactic(auto)]

ghost use Rattle.std.specs.Prelude.{◌≡◌, ◌*◌, ◌<◌, length};
ghost use Rattle.records.specs.Answer.{extent_answer};
ghost use Rattle.pool.specs.Answer.{refusal_answer, answer_of, records_in};
ghost use Rattle.pool.specs.Reading.{scan_of, read_of};
ghost use Rattle.pool.specs.Walk.{count_from, Starts, Reaches, Listed};

use records::Flaw;

// How many starts are listed: enough for every pool, or enough for a pool of at most `SHORT_POOL` bytes. A record takes at least 12 bytes,
// and the starts are followed by the end of the last record. A list takes time to clear, so a short pool gets a short one.
pub const LONG_LIST: usize = 5462;

pub const SHORT_LIST: usize = 1024;

pub const SHORT_POOL: usize = 12 * (SHORT_LIST - 1);

// Why a pool is refused, and where. The refusals are in the order of their numbers, 1 to 7.
#[derive(Clone, Copy)]
pub enum Refusal {
    Empty,
    TooLong,
    NoMark(usize),
    Cut(usize),
    LengthOver(usize),
    TooMany,
    TableShort(usize),
}

// Document 01's number for a refusal.
impl From<Refusal> for u32 {
    ghost from_gives = { λ refusal number. number ≡ (refusal_answer refusal).number };

    fn from(refusal: Refusal) -> u32 {
        match refusal {
            Refusal::Empty => 1,
            Refusal::TooLong => 2,
            Refusal::NoMark(_) => 3,
            Refusal::Cut(_) => 4,
            Refusal::LengthOver(_) => 5,
            Refusal::TooMany => 6,
            Refusal::TableShort(_) => 7,
        }
    }
}

impl Refusal {
    // The place in the pool, or how many entries the table needs; 0 for the refusals that have neither.
    pub fn place(self) -> usize
        ensures { result ≡ (refusal_answer self).value }
    {
        match self {
            Refusal::Empty | Refusal::TooLong | Refusal::TooMany => 0,
            Refusal::NoMark(at) | Refusal::Cut(at) | Refusal::LengthOver(at) => at,
            Refusal::TableShort(needed) => needed,
        }
    }
}

// Why a pool is refused that has a flaw in the record that starts at a place.
fn refused(flaw: Flaw, at: usize) -> Refusal
    ensures { refusal_answer result ≡ extent_answer at (Err flaw) }
{
    match flaw {
        Flaw::NoMark => Refusal::NoMark(at),
        Flaw::Cut => Refusal::Cut(at),
        Flaw::LengthOver(place) => Refusal::LengthOver(place),
    }
}

// Walks over the records: answers their count, or the earliest bad one. It lists where each record starts, and then where the last ends.
// A record's length says where the next one starts, so no iterator gives the places.
fn scan(p: &[u8], starts: &mut [u16]) -> Result<usize, Refusal>
    requires { (length p.now < 65536) × (length p.now < 12 * length starts.old) }
    ensures { (answer_of result ≡ count_from 0 (scan_of p.now)) × Starts p.now starts.new }
{
    let mut at: usize = 0;
    let mut n: usize = 0;
    while at < p.len() {
        match records::record_extent(p, at) {
            Ok(end) => {
                starts[n] = at as u16;
                at = end;
                n += 1;
            }
            Err(flaw) => return Err(refused(flaw, at)),
        }
    }
    starts[n] = at as u16;
    Ok(n)
}

// Reads a pool for a table of `room` entries. In the same walk it lists the records by their starts, in a list that is long enough for
// every record. After a refusal the list's contents are free. The list is no part of a struct with the pool: a function that wrote it there
// would have to promise besides that the pool stays, and functions that docs/ names ask for the list itself.
pub fn list_for(p: &[u8], room: usize, starts: &mut [u16]) -> Result<usize, Refusal>
    requires { Reaches starts.old p.now }
    ensures { (answer_of result ≡ read_of p.now room) × Listed p.now room starts.new }
{
    if p.is_empty() {
        return Err(Refusal::Empty);
    }
    if 65535 < p.len() {
        return Err(Refusal::TooLong);
    }
    let count = scan(p, starts)?;
    if 8192 < count {
        return Err(Refusal::TooMany);
    }
    if room < count {
        return Err(Refusal::TableShort(count));
    }
    Ok(count)
}

// The count of records that reading finds, 0 for a refusal. It is no `From`: neither a `Result` nor a `usize` is a type of this crate.
pub fn records_of(outcome: Result<usize, Refusal>) -> usize
    ensures { result ≡ records_in outcome }
{
    outcome.unwrap_or(0)
}
