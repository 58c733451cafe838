// Where a record ends. A field of fixed length is not tested for being within the pool: if it is past the pool's end, so is the field
// behind it, or the record's end. The functions take a pool and a place in it, and no struct of both, which would be made for one record.
ghost use Rattle.std.specs.Prelude.{◌≡◌, [], ◌∷◌, ◌+◌, ◌≤◌, cond, leb, ltb, length, get_or, IfOk};
ghost use Rattle.records.specs.Layout.{fixed, text, layout};
ghost use Rattle.records.specs.Extents.{field_end, fields_end};
ghost use Rattle.records.specs.Late.{late_fields, closed};
ghost use Rattle.records.specs.declared.Flaw.TheVariants.{Cut, LengthOver};
ghost use Rattle.records.specs.declared.Kind.TheVariants.{Dvc, Det, Dpd, Dpt, Dvp};

use super::{Flaw, Kind};

// A place, if it is within the pool or at its end.
fn end_within(p: &[u8], end: usize) -> Result<usize, Flaw>
    ensures exact { result ≡ cond (leb end (length p.now)) (Ok end) (Err Cut) }
    ensures bounded { IfOk result (λ at. at ≤ length p.now) }
{
    if p.len() < end {
        return Err(Flaw::Cut);
    }
    Ok(end)
}

// The end of a text with its length byte at a place.
fn text_end(p: &[u8], at: usize, limit: u8) -> Result<usize, Flaw>
    ensures exact { result ≡ field_end (text limit) p.now at }
    ensures bounded { IfOk result (λ end. end ≤ length p.now) }
{
    if p.len() <= at {
        return Err(Flaw::Cut);
    }
    let size = p[at];
    if limit < size {
        return Err(Flaw::LengthOver(at));
    }
    end_within(p, at + 1 + size as usize)
}

// What is wrong with a record that is not whole, and that is not cut before the length byte of its text at a place: the length byte can be
// over its limit.
fn short_flaw(p: &[u8], at: usize, limit: u8) -> Flaw
    ensures { result ≡ cond (ltb limit (get_or p.now at 0)) (LengthOver at) Cut }
{
    if limit < wire::read_u8(p, at) {
        return Flaw::LengthOver(at);
    }
    Flaw::Cut
}

// The end of a record of n bytes, a text with its length byte, and m bytes. Where the record would end with an empty text is computed
// without the length byte, so that the walk from record to record waits for one load and one sum.
fn text_within(p: &[u8], at: usize, n: usize, limit: u8, m: usize) -> Result<usize, Flaw>
    requires { (at ≤ length p.now) × (n ≤ 16) × (m ≤ 16) }
    ensures { result ≡ fields_end (fixed n ∷ text limit ∷ fixed m ∷ []) p.now (Ok at) }
{
    let least = at + n + 1 + m;
    if p.len() < least {
        return Err(short_flaw(p, at + n, limit));
    }
    let size = p[at + n];
    if limit < size {
        return Err(Flaw::LengthOver(at + n));
    }
    end_within(p, least + size as usize)
}

// A device: ID, designator, software version, NAME, serial number, structure label, localization label, extended label.
fn dvc_end(p: &[u8], at: usize) -> Result<usize, Flaw>
    requires { at ≤ length p.now }
    ensures { result ≡ fields_end (layout Dvc) p.now (Ok at) }
{
    let version_at = text_end(p, at + 2, 128)?;
    let name_at = text_end(p, version_at, 128)?;
    let structure_at = text_end(p, name_at + 8, 128)?;
    text_end(p, structure_at + 7 + 7, 32)
}

// A device element: ID, type, designator, element number, parent ID, entries. As with other records, where it would end with no text and
// no entry is computed without the length byte.
fn det_end(p: &[u8], at: usize) -> Result<usize, Flaw>
    requires { at ≤ length p.now }
    ensures { result ≡ fields_end (layout Det) p.now (Ok at) }
{
    let least = at + 10;
    if p.len() < least {
        return Err(short_flaw(p, at + 3, 128));
    }
    let size = p[at + 3];
    if 128 < size {
        return Err(Flaw::LengthOver(at + 3));
    }
    let entries_at = end_within(p, least + size as usize)?;
    let count = wire::within::<u16>(p, entries_at - 2);
    end_within(p, entries_at + 2 * count as usize)
}

// Process data: ID, DDI, properties, trigger methods, designator, presentation ID.
fn dpd_end(p: &[u8], at: usize) -> Result<usize, Flaw>
    requires { at ≤ length p.now }
    ensures { result ≡ fields_end (layout Dpd) p.now (Ok at) }
{
    text_within(p, at, 2 + 2 + 1 + 1, 128, 2)
}

// A property: ID, DDI, value, designator, presentation ID. It does not use the same function as process data: the compiler would merge
// the two, and each step would wait longer. What is left of the pool is tested, so that the walk from record to record waits for the
// length byte alone.
fn dpt_end(p: &[u8], at: usize) -> Result<usize, Flaw>
    requires { at ≤ length p.now }
    ensures { result ≡ fields_end (layout Dpt) p.now (Ok at) }
{
    if p.len() - at <= 2 + 2 + 4 {
        return Err(Flaw::Cut);
    }
    let size = p[at + 8];
    if 128 < size {
        return Err(Flaw::LengthOver(at + 8));
    }
    end_within(p, at + 8 + 1 + size as usize + 2)
}

// A value presentation: ID, offset, scale, decimals, unit text.
fn dvp_end(p: &[u8], at: usize) -> Result<usize, Flaw>
    requires { at ≤ length p.now }
    ensures { result ≡ fields_end (layout Dvp) p.now (Ok at) }
{
    text_within(p, at, 2 + 4 + 4 + 1, 128, 0)
}

// Where the fields after the mark of a kind end: by testing each field, and as well by passing the fields and testing the record's end.
pub(crate) fn marked(p: &[u8], kind: Kind, at: usize) -> Result<usize, Flaw>
    requires { at ≤ length p.now }
    ensures exact { result ≡ fields_end (layout kind) p.now (Ok at) }
    ensures late { result ≡ closed p.now (late_fields (layout kind) p.now (Ok at)) }
{
    match kind {
        Kind::Dvc => dvc_end(p, at),
        Kind::Det => det_end(p, at),
        Kind::Dpd => dpd_end(p, at),
        Kind::Dpt => dpt_end(p, at),
        Kind::Dvp => dvp_end(p, at),
    }
}
