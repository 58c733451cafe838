// The fields of a record, read at their places.
ghost use Rattle.std.specs.Prelude.{◌≡◌, ◌^◌, ◌≤◌, ◌<◌, length};
ghost use Rattle.time_log.specs.Layout.{width, place_of};
ghost use Rattle.time_log.specs.Contents.{part_at, fields_at};

use super::layout::WIDTHS;
use super::{Fields, Places};

// Optional field k as a number: its bytes at its place, or 0 if it is absent. That all fields lie within the bytes is asked, in reading,
// here and in `fields_of`, whose clause stands in docs/: a struct of bytes and places would be made for these two alone.
pub fn part(bytes: &[u8], places: &Places, k: usize) -> u32
    requires { (k ≤ 8) × (place_of places.now.layout 9 ≤ length bytes.now) }
    ensures { (result ≡ part_at places.now.layout bytes.now k) × (result < 256 ^ width k) }
{
    if (places.layout >> k) % 2 == 0 {
        return 0;
    }
    wire::number(bytes, places.starts[k], WIDTHS[k]) as u32
}

// Each call has its number k as a constant, and with it the field's width.
pub fn fields_of(bytes: &[u8], places: &Places) -> Fields
    requires { place_of places.now.layout 9 ≤ length bytes.now }
    ensures { result ≡ fields_at places.now.layout bytes.now }
{
    Fields {
        time: wire::number(bytes, 0, 4) as u32,
        days: wire::number(bytes, 4, 2) as u16,
        north: wire::signed(part(bytes, places, 0)),
        east: wire::signed(part(bytes, places, 1)),
        up: wire::signed(part(bytes, places, 2)),
        status: part(bytes, places, 3) as u8,
        pdop: part(bytes, places, 4) as u16,
        hdop: part(bytes, places, 5) as u16,
        satellites: part(bytes, places, 6) as u8,
        gps_time: part(bytes, places, 7),
        gps_date: part(bytes, places, 8) as u16,
    }
}
