// The lines of a listing. Each is put together in memory of its own and then copied into a lent buffer at a place; the place after it
// is returned. A line that does not fit is left out as a whole: buffer and place stay as they were. They are two parameters, as `decimal`
// says why.
#![tactic(auto)]

ghost use Rattle.std.specs.Prelude.{◌+◌, ◌≤◌, ◌≡◌, [], ◌++◌, length};
ghost use Rattle.wire.specs.Bytes.{laid};
ghost use Rattle.decimal.specs.Digits.{digits, place_after};
ghost use Rattle.listing.specs.Lines.{letters, count_line, record_line, accepted_line, fault_line, refused_line};

use std::marker::Model;

// A line that is being put together, in memory of its own: the first `used` bytes. It is seen as the list of these bytes.
#[derive(Drop)]
struct Line {
    memory: [u8; 128],
    used: usize,
}

impl Model for Line {
    ghost use Rattle.std.specs.Prelude.{◌≡◌, ◌≤◌, ℕ, List, length, take};

    ghost Value = { List ℕ };

    ghost view = { λ a. take a.used a.memory };

    ghost invariant = { λ a. a.used ≤ 128 };
}

impl Line {
    // A line without bytes.
    fn new() -> Line
        ensures { result ≡ [] }
    {
        Line {
            memory: [0; 128],
            used: 0,
        }
    }

    // Adds bytes, for which there is room.
    fn add(&mut self, s: &[u8])
        requires { length self.old + length s.now ≤ 128 }
        ensures { self.new ≡ self.old ++ s.now }
    {
        wire::copy(s, &mut self.memory, self.used);
        self.used += s.len();
    }

    // Adds a word and the digits of a number, of which there are at most 20.
    fn add_number(&mut self, word: &[u8], x: u64)
        requires { length self.old + length word.now + 20 ≤ 128 }
        ensures line { self.new ≡ self.old ++ word.now ++ digits x }
        ensures few { length self.new ≤ length self.old + length word.now + 20 }
    {
        self.add(word);
        self.used = decimal::put(&mut self.memory, self.used, x);
    }

    // Copies the line into a buffer, whole or not at all, and returns the place after it.
    fn lay(&self, out: &mut [u8], at: usize) -> usize
        ensures { (out.new ≡ laid out.old at self.now) × (result ≡ place_after out.old at self.now) }
    {
        decimal::put_bytes(out, at, &self.memory[..self.used])
    }
}

// The mark of a kind, by the kind's number; no bytes for a number that no kind has, which `put_record` may be given.
fn mark_of(kind: u16) -> &'static [u8]
    ensures { (result.now ≡ letters kind) × (length result.now ≤ 3) }
{
    match kind {
        1 => b"DVC",
        2 => b"DET",
        3 => b"DPD",
        4 => b"DPT",
        5 => b"DVP",
        _ => b"",
    }
}

// Writes the line for the count of records.
#[tactic(auto, unfolding(crate::specs::Lines::count_line))]
pub fn put_count(out: &mut [u8], at: usize, count: u64) -> usize
    ensures { (out.new ≡ laid out.old at (count_line count)) × (result ≡ place_after out.old at (count_line count)) }
{
    let mut line = Line::new();
    line.add_number(b"records ", count);
    line.add(b"\n");
    line.lay(out, at)
}

// Writes the line for a record.
#[tactic(auto, unfolding(crate::specs::Lines::record_line))]
pub fn put_record(out: &mut [u8], at: usize, kind: u16, id: u16, start: u16, size: u16) -> usize
    ensures { (out.new ≡ laid out.old at (record_line kind id start size)) × (result ≡ place_after out.old at (record_line kind id start size)) }
{
    let mut line = Line::new();
    line.add(mark_of(kind));
    line.add_number(b" ", id as u64);
    line.add_number(b" at ", start as u64);
    line.add_number(b" length ", size as u64);
    line.add(b"\n");
    line.lay(out, at)
}

// Writes the line for a pool without faults.
pub fn put_accepted(out: &mut [u8], at: usize) -> usize
    ensures { (out.new ≡ laid out.old at accepted_line) × (result ≡ place_after out.old at accepted_line) }
{
    decimal::put_bytes(out, at, b"accepted\n")
}

// Writes the line for a fault. Its five numbers are passed one by one, as the buffer of faults has them: a struct would be built only to be
// taken apart here.
#[tactic(auto, unfolding(crate::specs::Lines::fault_line))]
pub fn put_fault(
    out: &mut [u8],
    at: usize,
    number: u16,
    rule: u16,
    item: u16,
    id: u16,
    parent: u16,
) -> usize
    ensures { (out.new ≡ laid out.old at (fault_line number rule item id parent)) × (result ≡ place_after out.old at (fault_line number rule item id parent)) }
{
    let mut line = Line::new();
    line.add_number(b"fault ", number as u64);
    line.add_number(b" ", rule as u64);
    line.add_number(b" ", item as u64);
    line.add_number(b" ", id as u64);
    line.add_number(b" ", parent as u64);
    line.add(b"\n");
    line.lay(out, at)
}

// Writes the line for a refusal.
#[tactic(auto, unfolding(crate::specs::Lines::refused_line))]
pub fn put_refused(out: &mut [u8], at: usize, number: u64, place: u64) -> usize
    ensures { (out.new ≡ laid out.old at (refused_line number place)) × (result ≡ place_after out.old at (refused_line number place)) }
{
    let mut line = Line::new();
    line.add_number(b"refused ", number);
    line.add_number(b" ", place);
    line.add(b"\n");
    line.lay(out, at)
}
