// Log records: time and position, the fields that a layout marks, and log values with their ordinals; the places of these, and which
// of them are judged.
#![tactic(auto)]

mod contents;
mod judging;
mod layout;

ghost use Rattle.std.specs.Prelude.{◌≡◌, cond, ltb};
ghost use Rattle.time_log.specs.Layout.{marks_set};
ghost use Rattle.time_log.specs.Refusing.{refusal_number, marks_of};

pub use contents::fields_of;
pub use judging::{any_over, judge_fields, judge_record};
pub use layout::{Places, WIDTHS, judge_layout, places_of};

// Why a log record or a log is refused, in the order of document 01's numbers, 40 to 48.
#[derive(Clone, Copy, Debug, PartialEq, Eq)]
pub enum Refusal {
    CutRecord,
    BadTime,
    BadNorth,
    BadEast,
    BadStatus,
    OrdinalOver,
    NoRoom,
    BadLayout,
    BadCounts,
}

// Document 01's number for a refusal.
impl From<Refusal> for u32 {
    ghost from_gives = { λ refusal number. number ≡ refusal_number refusal };

    fn from(refusal: Refusal) -> u32 {
        match refusal {
            Refusal::CutRecord => 40,
            Refusal::BadTime => 41,
            Refusal::BadNorth => 42,
            Refusal::BadEast => 43,
            Refusal::BadStatus => 44,
            Refusal::OrdinalOver => 45,
            Refusal::NoRoom => 46,
            Refusal::BadLayout => 47,
            Refusal::BadCounts => 48,
        }
    }
}

// A record's fields. A field that the layout does not mark is 0.
#[repr(C)]
#[derive(Clone, Copy, Default)]
pub struct Fields {
    pub time: u32,
    pub days: u16,
    pub north: i32,
    pub east: i32,
    pub up: i32,
    pub status: u8,
    pub pdop: u16,
    pub hdop: u16,
    pub satellites: u8,
    pub gps_time: u32,
    pub gps_date: u16,
}

// What `lachsbrille_log_optional_fields` tells C: refusal 47, or 0 and the number of optional fields.
#[repr(C)]
#[derive(Clone, Copy)]
pub struct Marks {
    pub number: u32,
    pub count: u32,
}

impl From<Result<u32, Refusal>> for Marks {
    ghost from_gives = { λ answer marks. marks ≡ marks_of answer };

    fn from(answer: Result<u32, Refusal>) -> Marks {
        match answer {
            Ok(count) => Marks { number: 0, count },
            Err(refusal) => Marks {
                number: refusal.into(),
                count: 0,
            },
        }
    }
}

// How many optional fields a layout has.
pub fn optional_fields(layout: u32) -> Result<u32, Refusal>
    ensures { result ≡ cond (ltb 511 layout) (Err Refusal.BadLayout) (Ok (marks_set layout)) }
{
    judge_layout(layout)?;
    Ok(layout.count_ones())
}
