// Log records for C: read and written, and whole logs read. The struct that is returned has the number of a refusal.
ghost use Rattle.std.specs.Prelude.{◌≡◌, cond, ltb, length};
ghost use Rattle.time_log.specs.Layout.{marks_set, record_length};
ghost use Rattle.log_reading.specs.Reading.{read_of, ordinals_after, values_after};
ghost use Rattle.log_reading.specs.Logs.{log_of};
ghost use Rattle.log_writing.specs.Writing.{write_refusal, written_as, bytes_after};

use log_reading::{Log, Record};
use log_writing::Written;
use time_log::{Fields, Marks};

// The number of optional fields that a layout marks.
pub fn lachsbrille_log_optional_fields(layout: u32) -> Marks
    ensures { (result.number ≡ cond (ltb 511 layout) 47 0) × (result.count ≡ cond (ltb 511 layout) 0 (marks_set layout)) }
{
    time_log::optional_fields(layout).into()
}

// Reads the record that the bytes start with.
pub fn lachsbrille_log_read_record(
    bytes: &[u8],
    layout: u32,
    logged: usize,
    ordinals: &mut [u8],
    values: &mut [i32],
) -> Record
    ensures { (result ≡ read_of layout logged bytes.now (length ordinals.old) (length values.old)) × (ordinals.new ≡ ordinals_after layout logged bytes.now ordinals.old values.old) × (values.new ≡ values_after layout logged bytes.now ordinals.old values.old) }
{
    log_reading::read_record(bytes, layout, logged, ordinals, values).into()
}

// Writes a record of the first `count` ordinals and values. The fields are passed by reference: x86-64 and aarch64 pass a struct of
// their size by value in different ways.
pub fn lachsbrille_log_write_record(
    to: &mut [u8],
    layout: u32,
    fields: &Fields,
    logged: usize,
    ordinals: &[u8],
    values: &[i32],
    count: usize,
) -> Written
    ensures { (result ≡ written_as (write_refusal layout fields.now logged ordinals.now values.now count (length to.old)) (record_length layout count)) × (to.new ≡ bytes_after to.old layout fields.now logged ordinals.now values.now count) }
{
    log_writing::write_record(to, layout, *fields, logged, ordinals, values, count).into()
}

// Reads the records of a log to its end.
pub fn lachsbrille_log_read(bytes: &[u8], layout: u32, logged: usize) -> Log
    ensures { result ≡ log_of layout logged bytes.now }
{
    log_reading::read_log(bytes, layout, logged).into()
}
