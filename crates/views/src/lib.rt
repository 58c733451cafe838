// The fields of the record that starts at a place, by value. A place has 16 bits, as every record's start does. If the record
// is not whole, bytes past the pool's end are read as 0. Every public function takes any bytes and any place.
#![tactic(auto)]

ghost use Rattle.std.specs.Prelude.{◌≡◌, ℕ, ◌+◌, ◌*◌, ◌≤◌, ◌<◌};
ghost use Rattle.wire.specs.Bytes.{number_in};
ghost use Rattle.wire.specs.Parts.{place_in};
ghost use Rattle.views.specs.Fields.{text_after, part_of, start_in, device_of, element_of, entry_of, process_data_of, property_of, presentation_of};

use records::{Device, DeviceElement, ProcessData, Property, Span, ValuePresentation};

// The place of the text after the length byte at a place.
fn text(p: &[u8], at: usize) -> Span
    requires { at < 131072 }
    ensures { (result ≡ text_after p.now at) × (result.to ≤ at + 256) }
{
    let n = wire::read_u8(p, at);
    Span {
        from: at + 1,
        to: at + 1 + n as usize,
    }
}

// The bytes of a span that are within the pool, as a slice of the lent pool. Even an empty part points to the span's start, or to the
// pool's end if the span starts past it.
pub fn part<'a>(p: &'a [u8], s: Span) -> &'a [u8]
    ensures { (result.now ≡ part_of p.now s) × (result.ref_ptr ≡ place_in p.entry (start_in p.now s)) }
{
    wire::part(p, s.from, s.to)
}

pub fn device(p: &[u8], at: u16) -> Device
    ensures { result ≡ device_of p.now at }
{
    let id_at = at as usize + 3;
    let designator = text(p, id_at + 2);
    let version = text(p, designator.to);
    let name_at = version.to;
    let name = wire::read::<u64>(p, name_at);
    let serial = text(p, name_at + 8);
    let structure_at = serial.to;
    let localization_at = structure_at + 7;
    let extended_at = localization_at + 7;
    let structure = Span {
        from: structure_at,
        to: localization_at,
    };
    let localization = Span {
        from: localization_at,
        to: extended_at,
    };
    let extended = text(p, extended_at);
    Device {
        designator,
        version,
        name,
        serial,
        structure,
        localization,
        extended,
    }
}

pub fn device_element(p: &[u8], at: u16) -> DeviceElement
    ensures { result ≡ element_of p.now at }
{
    let id_at = at as usize + 3;
    let type_at = id_at + 2;
    let element_type = wire::read_u8(p, type_at);
    let designator = text(p, type_at + 1);
    let number_at = designator.to;
    let number = wire::read::<u16>(p, number_at);
    let parent_at = number_at + 2;
    let parent = wire::read::<u16>(p, parent_at);
    let entries = wire::read::<u16>(p, parent_at + 2);
    DeviceElement {
        element_type,
        designator,
        number,
        parent,
        entries,
    }
}

// The place where the entries of a device element's list begin.
pub fn entries_from(p: &[u8], at: u16) -> usize
    ensures { ((m : ℕ) → entry_of p.now at m ≡ number_in 2 p.now (result + 2 * m)) × (result ≤ 65535 + 268) }
{
    let id_at = at as usize + 3;
    let designator = text(p, id_at + 2 + 1);
    let number_at = designator.to;
    let count_at = number_at + 2 + 2;
    count_at + 2
}

// The ID that entry i of a device element's list names, counted from 0.
pub fn entry(p: &[u8], at: u16, i: u16) -> u16
    ensures { result ≡ entry_of p.now at i }
{
    wire::read::<u16>(p, entries_from(p, at) + 2 * i as usize)
}

pub fn process_data(p: &[u8], at: u16) -> ProcessData
    ensures { result ≡ process_data_of p.now at }
{
    let id_at = at as usize + 3;
    let ddi_at = id_at + 2;
    let ddi = wire::read::<u16>(p, ddi_at);
    let properties_at = ddi_at + 2;
    let properties = wire::read_u8(p, properties_at);
    let triggers_at = properties_at + 1;
    let triggers = wire::read_u8(p, triggers_at);
    let designator = text(p, triggers_at + 1);
    let presentation = wire::read::<u16>(p, designator.to);
    ProcessData {
        ddi,
        properties,
        triggers,
        designator,
        presentation,
    }
}

pub fn property(p: &[u8], at: u16) -> Property
    ensures { result ≡ property_of p.now at }
{
    let id_at = at as usize + 3;
    let ddi_at = id_at + 2;
    let ddi = wire::read::<u16>(p, ddi_at);
    let value_at = ddi_at + 2;
    let value = wire::read::<i32>(p, value_at);
    let designator = text(p, value_at + 4);
    let presentation = wire::read::<u16>(p, designator.to);
    Property {
        ddi,
        value,
        designator,
        presentation,
    }
}

pub fn value_presentation(p: &[u8], at: u16) -> ValuePresentation
    ensures { result ≡ presentation_of p.now at }
{
    let id_at = at as usize + 3;
    let offset_at = id_at + 2;
    let offset = wire::read::<i32>(p, offset_at);
    let scale_at = offset_at + 4;
    let scale = wire::read::<u32>(p, scale_at);
    let decimals_at = scale_at + 4;
    let decimals = wire::read_u8(p, decimals_at);
    let unit = text(p, decimals_at + 1);
    ValuePresentation {
        offset,
        scale,
        decimals,
        unit,
    }
}
