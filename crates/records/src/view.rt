// What every record begins with: its mark and its object ID. A place has 16 bits, as every record's start does. Bytes past the
// pool's end are read as 0.
ghost use Rattle.std.specs.Prelude.{◌≡◌, ◌||◌, eqb};
ghost use Rattle.records.specs.Layout.{mark_code, mark_of, three};
ghost use Rattle.records.specs.Places.{id_of, parent_id_of};

use super::Kind;

// The kind of the record at a place, if there is a mark.
pub fn mark(p: &[u8], at: u16) -> Option<Kind>
    ensures { result ≡ mark_of (three p.now at) }
{
    let start = at as usize;
    if p.len() < start + 3 {
        return None;
    }
    super::mark_of(p[start], p[start + 1], p[start + 2])
}

// The kind of a record if it is known that there is a mark: two letters tell the marks apart. This and the functions below take a pool
// and a place, and no struct of both that holds the mark: naming's list of records holds it for all its places, and a caller would build
// the struct for a single call.
pub fn marked(p: &[u8], at: u16) -> Kind
    requires { mark_code (mark_of (three p.now at)) ≡ 0 → ⊥ }
    ensures { mark_of (three p.now at) ≡ Some result }
{
    let start = at as usize;
    let second = p[start + 1];
    let third = p[start + 2];
    if second == b'P' {
        if third == b'D' {
            return Kind::Dpd;
        }
        return Kind::Dpt;
    }
    if second == b'E' {
        return Kind::Det;
    }
    if third == b'P' {
        return Kind::Dvp;
    }
    Kind::Dvc
}

// The number of the same kind without a branch, as the working table stores it for C: the two letters, as a number, times 6663 have it in
// bits 15 to 17.
pub fn kind_number(p: &[u8], at: u16) -> u16
    requires { mark_code (mark_of (three p.now at)) ≡ 0 → ⊥ }
    ensures { result ≡ mark_code (mark_of (three p.now at)) }
{
    let start = at as usize;
    let letters = p[start + 1] as usize + 256 * p[start + 2] as usize;
    (letters * 6663 / 32768 % 8) as u16
}

// Whether a record with a mark is process data or a property: P is the second letter of their marks and of no other.
pub fn is_data(p: &[u8], at: u16) -> bool
    requires { mark_code (mark_of (three p.now at)) ≡ 0 → ⊥ }
    ensures { result ≡ (eqb (mark_code (mark_of (three p.now at))) 3 || eqb (mark_code (mark_of (three p.now at))) 4) }
{
    p[at as usize + 1] == b'P'
}

// The object ID of a record of any kind.
pub fn id(p: &[u8], at: u16) -> u16
    ensures { result ≡ id_of p.now at }
{
    wire::read::<u16>(p, at as usize + 3)
}

// The parent ID of a record with a mark: a device element's own field, behind its designator and its element number. No other kind has
// one: 65535.
pub fn parent_id(p: &[u8], at: u16) -> u16
    requires { mark_code (mark_of (three p.now at)) ≡ 0 → ⊥ }
    ensures { result ≡ parent_id_of p.now at }
{
    if kind_number(p, at) != u16::from(Kind::Det) {
        return 65535;
    }
    let length_at = at as usize + 6;
    let number_at = length_at + 1 + wire::read_u8(p, length_at) as usize;
    wire::read::<u16>(p, number_at + 2)
}
