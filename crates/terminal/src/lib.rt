// The C interface: numbers and lent memory. A call returns 0 or the number of a refusal; a count or a place is written to a lent
// number. The working table is a lent slice of records.
#![tactic(auto)]

use queries::DeviceLabels;
use records::Span;
use working_table::Record;

pub mod display;
pub mod exchange;
pub mod logs;
pub mod objects;
pub mod sessions;

ghost use Rattle.std.specs.Prelude.{◌≡◌, length};
ghost use Rattle.pool.specs.Reading.{read_of};
ghost use Rattle.working_table.specs.Table.{records_after};
ghost use Rattle.text.specs.Examined.{sound_text};
ghost use Rattle.checker.specs.Checking.{check_of, faults_after};
ghost use Rattle.queries.specs.Queries.{Labelled};
ghost use Rattle.c_answers.specs.Numbers.{Says};
ghost use Rattle.terminal.specs.Texts.{Gives};

// The release: major * 10,000 + minor * 100 + patch.
pub fn lachsbrille_version() -> u32
    ensures { result ≡ 20000 }
{
    20000
}

// Reads a pool into the table. The count of records or the refusal's place is written to the lent number.
pub fn lachsbrille_read(p: &[u8], table: &mut [Record], value: &mut usize) -> u32
    ensures { Says (read_of p.now (length table.old)) result value.new × (table.new ≡ records_after p.now table.old) }
{
    c_answers::give_outcome(working_table::read(p, table), value)
}

// Checks a pool. The full count of faults or the refusal's place is written to the lent number.
pub fn lachsbrille_check(
    p: &[u8],
    table: &mut [Record],
    faults: &mut [u16],
    value: &mut usize,
) -> u32
    ensures { Says (check_of p.now (length table.old)) result value.new × (table.new ≡ records_after p.now table.old) × (faults.new ≡ faults_after p.now (length table.old) faults.old) }
{
    c_answers::give_verdict(checker::check(p, table, faults), value)
}

// Whether a text keeps rule 4.
pub fn lachsbrille_text_is_sound(s: &[u8]) -> bool
    ensures { result ≡ sound_text s.now }
{
    text::is_sound(s)
}

// Finds the text of the first record with an ID. The places in the pool where it begins and ends are written to the lent numbers.
pub fn lachsbrille_text(
    p: &[u8],
    table: &mut [Record],
    id: u32,
    from: &mut usize,
    to: &mut usize,
) -> u32
    ensures { Gives p.now (length table.old) id result from.new to.new × (table.new ≡ records_after p.now table.old) }
{
    match device_pool::find_text(p, table, id) {
        Ok(span) => c_answers::give_place(0, span, from, to),
        Err(refusal) => c_answers::give_place(refusal.into(), Span { from: 0, to: 0 }, from, to),
    }
}

// The labels of the device, as a struct by value.
pub fn lachsbrille_labels(p: &[u8], table: &mut [Record]) -> DeviceLabels
    ensures { Labelled p.now (length table.old) result × (table.new ≡ records_after p.now table.old) }
{
    device_pool::labels(p, table)
}
