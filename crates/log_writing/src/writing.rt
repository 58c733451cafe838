// The fields of a record and its pairs of ordinal and value, written into bytes that have room for them.
ghost use Rattle.std.specs.Prelude.{◌≡◌, ◌+◌, ◌*◌, ◌≤◌, eqb, cond, length};
ghost use Rattle.std.proofs.lemmas.List.Edits.{sets};
ghost use Rattle.wire.specs.Bytes.{bytes_of};
ghost use Rattle.time_log.specs.Layout.{part_width, place_of};
ghost use Rattle.log_writing.specs.Writing.{kept_fields, bytes_before, pairs_from};

use time_log::{Fields, Places, WIDTHS};

// A value of optional field k if the layout marks it, and otherwise another.
fn if_marked<T: Copy>(layout: u32, k: usize, value: T, absent: T) -> T
    requires { k ≤ 8 }
    ensures { result ≡ cond (eqb (part_width layout k) 0) absent value }
{
    if (layout >> k) % 2 == 0 {
        absent
    } else {
        value
    }
}

// The fields with 0 for those that the layout does not mark, which are then neither refused nor written.
pub fn kept(layout: u32, fields: Fields) -> Fields
    ensures { result ≡ kept_fields layout fields }
{
    Fields {
        north: if_marked(layout, 0, fields.north, 0),
        east: if_marked(layout, 1, fields.east, 0),
        up: if_marked(layout, 2, fields.up, 0),
        status: if_marked(layout, 3, fields.status, 0),
        pdop: if_marked(layout, 4, fields.pdop, 0),
        hdop: if_marked(layout, 5, fields.hdop, 0),
        satellites: if_marked(layout, 6, fields.satellites, 0),
        gps_time: if_marked(layout, 7, fields.gps_time, 0),
        gps_date: if_marked(layout, 8, fields.gps_date, 0),
        ..fields
    }
}

// Writes optional field k into its bytes at its place, if it is marked. Room for all fields is asked, in writing, here and in `put_fields`:
// a struct of buffer and places would be made for these two alone.
fn put_part(to: &mut [u8], places: &Places, k: usize, x: u32)
    requires { (k ≤ 8) × (place_of places.now.layout 9 ≤ length to.old) }
    ensures { to.new ≡ sets to.old (place_of places.now.layout k) (bytes_of (part_width places.now.layout k) x) }
{
    if (places.layout >> k) % 2 == 0 {
        return;
    }
    wire::put(to, places.starts[k], WIDTHS[k], x as u64);
}

// Writes the time, the days and the marked fields. Each call has its number k as a constant, and with it the field's width.
pub fn put_fields(to: &mut [u8], places: &Places, fields: Fields)
    requires { place_of places.now.layout 9 ≤ length to.old }
    ensures { to.new ≡ sets to.old 0 (bytes_before places.now.layout fields 9) }
{
    wire::put(to, 0, 4, fields.time as u64);
    wire::put(to, 4, 2, fields.days as u64);
    put_part(to, places, 0, wire::bits(fields.north));
    put_part(to, places, 1, wire::bits(fields.east));
    put_part(to, places, 2, wire::bits(fields.up));
    put_part(to, places, 3, fields.status as u32);
    put_part(to, places, 4, fields.pdop as u32);
    put_part(to, places, 5, fields.hdop as u32);
    put_part(to, places, 6, fields.satellites as u32);
    put_part(to, places, 7, fields.gps_time);
    put_part(to, places, 8, fields.gps_date as u32);
}

// Writes n ordinals, each followed by its value, from the two lists that C lends. By index: the pair's place comes from it, so a `zip` of
// the lists, cut to n, would need `enumerate` besides, and of what `chunks_exact_mut` leaves behind, a proof knows nothing.
pub fn put_pairs(to: &mut [u8], at: usize, ordinals: &[u8], values: &[i32], n: usize)
    requires { (n ≤ 255) × (n ≤ length ordinals.now) × (n ≤ length values.now) × (at + 5 * n ≤ length to.old) }
    ensures { to.new ≡ sets to.old at (pairs_from ordinals.now values.now 0 n) }
{
    for k in 0..n {
        let pair = at + 5 * k;
        to[pair] = ordinals[k];
        wire::put(to, pair + 1, 4, wire::bits(values[k]) as u64);
    }
}
