// Writing log records.
#![tactic(auto)]

mod writing;

ghost use Rattle.std.specs.Prelude.{◌≡◌, length};
ghost use Rattle.time_log.specs.Layout.{record_length};
ghost use Rattle.time_log.specs.Judging.{one_over};
ghost use Rattle.log_writing.specs.Writing.{write_refusal, written_of, written_as, bytes_after};
ghost use Rattle.log_writing.specs.Back.{ReadsBack};
ghost use Rattle.log_writing.specs.Again.{WrittenAgain};

use time_log::{Fields, Refusal};

// What `lachsbrille_log_write_record` tells C: number 0 and its length, or a refusal and 0.
#[repr(C)]
#[derive(Clone, Copy)]
pub struct Written {
    pub number: u32,
    pub length: usize,
}

impl From<Result<usize, Refusal>> for Written {
    ghost from_gives = { λ answer told. told ≡ written_of answer };

    fn from(answer: Result<usize, Refusal>) -> Written {
        match answer {
            Ok(length) => Written { number: 0, length },
            Err(refusal) => Written {
                number: refusal.into(),
                length: 0,
            },
        }
    }
}

// Whether one of the ordinals is not below the count of log values. All are looked at, so that many are compared at once: 255 of them take
// 18 ns, and 59 by fours as in `time_log::any_over`, where they are five bytes apart.
fn any_of_list_over(ordinals: &[u8], logged: usize) -> bool
    ensures { result ≡ one_over logged ordinals.now }
{
    if 255 < logged {
        return false;
    }
    let limit = logged as u8;
    let mut over = false;
    for ordinal in ordinals {
        over |= limit <= *ordinal;
    }
    over
}

// Writes a record of the first `count` ordinals and values into the first bytes, and gives its length.
pub fn write_record(
    to: &mut [u8],
    layout: u32,
    fields: Fields,
    logged: usize,
    ordinals: &[u8],
    values: &[i32],
    count: usize,
) -> Result<usize, Refusal>
    ensures { (written_of result ≡ written_as (write_refusal layout fields logged ordinals.now values.now count (length to.old)) (record_length layout count)) × (to.new ≡ bytes_after to.old layout fields logged ordinals.now values.now count) }
{
    time_log::judge_layout(layout)?;
    if (255 < count) | ((ordinals.len() < count) | (values.len() < count)) {
        return Err(Refusal::BadCounts);
    }
    let kept = writing::kept(layout, fields);
    let over = any_of_list_over(&ordinals[..count], logged);
    time_log::judge_fields(kept, over)?;
    let places = time_log::places_of(layout);
    let length = places.length_with(count);
    if to.len() < length {
        return Err(Refusal::NoRoom);
    }
    let at = places.count();
    writing::put_fields(to, &places, kept);
    to[at] = count as u8;
    writing::put_pairs(to, at + 1, ordinals, values, count);
    Ok(length)
}

// The functions below do nothing: their contracts are claims, so that the report names them.

// What is written reads back the same.
pub fn records_read_back()
    ensures { ReadsBack }
{}

// What is read is written again byte for byte.
pub fn records_written_again()
    ensures { WrittenAgain }
{}
