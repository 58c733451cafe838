// Why a record is refused.
ghost use Rattle.std.specs.Prelude.{◌≡◌, ◌+◌, ◌*◌, ◌≤◌, length, IfOk};
ghost use Rattle.time_log.specs.Contents.{spaced, extent_of};
ghost use Rattle.time_log.specs.Judging.{is_known_status, one_over, refusal_of_fields, record_refusal};
ghost use Rattle.time_log.specs.Refusing.{number_of};
ghost use Rattle.time_log.specs.Within.{refusal_by};

use super::contents::part;
use super::{Fields, Places, Refusal};

fn known_status(status: u8) -> bool
    ensures { result ≡ is_known_status status }
{
    (status <= 8) | ((14 <= status) & (status <= 15))
}

// Whether one of n ordinals, five bytes apart, is not below a limit.
fn last_over(s: &[u8], at: usize, n: usize, limit: u8) -> bool
    requires { at + 5 * n ≤ length s.now }
    ensures { result ≡ one_over limit (spaced 5 n s.now at) }
{
    (0..n).any(|k| limit <= s[at + 5 * k])
}

// The same with the count of log values as the limit; from 256 on every byte is below it. Testing four ordinals at once halves the time.
// In this form 255 ordinals take 64 ns, and 110 as a `for` over `chunks_exact(20)` or over the number of fours.
pub fn any_over(s: &[u8], at: usize, n: usize, logged: usize) -> bool
    requires { at + 5 * n ≤ length s.now }
    ensures { result ≡ one_over logged (spaced 5 n s.now at) }
{
    if 255 < logged {
        return false;
    }
    let limit = logged as u8;
    let mut p = at;
    let mut left = n;
    while 4 <= left {
        if (limit <= s[p]) | ((limit <= s[p + 5]) | ((limit <= s[p + 10]) | (limit <= s[p + 15]))) {
            return true;
        }
        p += 20;
        left -= 4;
    }
    last_over(s, p, left, limit)
}

// Judges what is judged of the fields, in their order. Of north and east it is their size.
fn judge_parts(time: u32, north: u32, east: u32, status: u8, over: bool) -> Result<(), Refusal>
    ensures { number_of result ≡ refusal_by time north east status over }
{
    if 86399999 < time {
        return Err(Refusal::BadTime);
    }
    if 900000000 < north {
        return Err(Refusal::BadNorth);
    }
    if 1800000000 < east {
        return Err(Refusal::BadEast);
    }
    if !known_status(status) {
        return Err(Refusal::BadStatus);
    }
    if over {
        return Err(Refusal::OrdinalOver);
    }
    Ok(())
}

// Judges a record's fields, given whether an ordinal is not below the count of log values.
pub fn judge_fields(fields: Fields, over: bool) -> Result<(), Refusal>
    ensures { number_of result ≡ refusal_of_fields fields over }
{
    let north = fields.north.unsigned_abs();
    let east = fields.east.unsigned_abs();
    judge_parts(fields.time, north, east, fields.status, over)
}

// Judges the record of a log that the bytes start with, and gives its length. Of its fields only those are read that are judged.
pub fn judge_record(bytes: &[u8], places: &Places, logged: usize) -> Result<usize, Refusal>
    requires { places.now.layout ≤ 511 }
    ensures number { number_of result ≡ record_refusal places.now.layout logged bytes.now }
    ensures extent { IfOk result (λ n. n ≡ extent_of places.now.layout bytes.now) }
{
    let n = places.values_in(bytes)?;
    let time = wire::number(bytes, 0, 4) as u32;
    let north = wire::signed(part(bytes, places, 0)).unsigned_abs();
    let east = wire::signed(part(bytes, places, 1)).unsigned_abs();
    let status = part(bytes, places, 3) as u8;
    let over = any_over(bytes, places.count() + 1, n, logged);
    judge_parts(time, north, east, status, over)?;
    Ok(places.length_with(n))
}
