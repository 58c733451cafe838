// The five records of annex A: their marks, where a record ends, and what fields it has. Every public function takes any bytes and any
// place, except that `marked`, `kind_number`, `is_data` and `parent_id` of `view` require a mark at the place.
#![tactic(auto)]

mod end;
pub mod view;

#[derive(Clone, Copy, PartialEq, Eq)]
pub enum Kind {
    Dvc,
    Det,
    Dpd,
    Dpt,
    Dvp,
}

// The first thing wrong with a record, read from left to right: it begins with no mark, the pool ends inside it, or the length byte at a
// place is over its limit.
#[derive(Clone, Copy)]
pub enum Flaw {
    NoMark,
    Cut,
    LengthOver(usize),
}

// A part of the pool: from one place up to, but not including, another.
#[repr(C)]
#[derive(Clone, Copy)]
pub struct Span {
    pub from: usize,
    pub to: usize,
}

#[repr(C)]
#[derive(Clone, Copy)]
pub struct Device {
    pub designator: Span,
    pub version: Span,
    pub name: u64,
    pub serial: Span,
    pub structure: Span,
    pub localization: Span,
    pub extended: Span,
}

#[repr(C)]
#[derive(Clone, Copy)]
pub struct DeviceElement {
    pub element_type: u8,
    pub designator: Span,
    pub number: u16,
    pub parent: u16,
    pub entries: u16,
}

#[repr(C)]
#[derive(Clone, Copy)]
pub struct ProcessData {
    pub ddi: u16,
    pub properties: u8,
    pub triggers: u8,
    pub designator: Span,
    pub presentation: u16,
}

#[repr(C)]
#[derive(Clone, Copy)]
pub struct Property {
    pub ddi: u16,
    pub value: i32,
    pub designator: Span,
    pub presentation: u16,
}

// The scale is given as its bits, by which its range is judged.
#[repr(C)]
#[derive(Clone, Copy)]
pub struct ValuePresentation {
    pub offset: i32,
    pub scale: u32,
    pub decimals: u8,
    pub unit: Span,
}

ghost use Rattle.std.specs.Prelude.{◌≡◌, [], ◌∷◌};
ghost use Rattle.records.specs.Layout.{kind_code, mark_of};
ghost use Rattle.records.specs.Extents.{extent_of};
ghost use Rattle.records.specs.Answer.{extent_answer, record_answer};

// The number of a kind in the working table.
impl From<Kind> for u16 {
    ghost from_gives = { λ kind number. number ≡ kind_code kind };

    fn from(kind: Kind) -> u16 {
        match kind {
            Kind::Dvc => 1,
            Kind::Det => 2,
            Kind::Dpd => 3,
            Kind::Dpt => 4,
            Kind::Dvp => 5,
        }
    }
}

// The kind by the three letters of its mark. The second and third letters are compared as one number, with the third in its upper byte.
fn mark_of(a: u8, b: u8, c: u8) -> Option<Kind>
    ensures { result ≡ mark_of (a ∷ b ∷ c ∷ []) }
{
    if a != b'D' {
        return None;
    }
    match b as u16 + 256 * c as u16 {
        0x4450 => Some(Kind::Dpd),
        0x5450 => Some(Kind::Dpt),
        0x5445 => Some(Kind::Det),
        0x5056 => Some(Kind::Dvp),
        0x4356 => Some(Kind::Dvc),
        _ => None,
    }
}

// Where the record that starts at a place ends, also by the numbers of document 01.
pub fn record_extent(p: &[u8], at: usize) -> Result<usize, Flaw>
    ensures { (result ≡ extent_of p.now at) × (extent_answer at result ≡ record_answer p.now at) }
{
    if p.len() < at || p.len() - at < 3 {
        return Err(Flaw::Cut);
    }
    let kind = mark_of(p[at], p[at + 1], p[at + 2]).ok_or(Flaw::NoMark)?;
    end::marked(p, kind, at + 3)
}
