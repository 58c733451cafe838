// The rules about one record alone: IDs, texts and ranges.
#![tactic(auto)]

pub mod whole;

ghost use Rattle.std.specs.Prelude.{◌≡◌, not, ◌&&◌, ◌||◌, [], ◌∷◌, ◌+◌, ◌≤◌, ◌<◌, ◌^◌, eqb, ltb, leb};
ghost use Rattle.records.specs.Layout.{kind_code, mark_code};
ghost use Rattle.faults.specs.Rows.{many};
ghost use Rattle.faults.specs.Adding.{Adds};
ghost use Rattle.rules.specs.Table.{unsound, bad_label, bad_scale, bad_source, bad_own, is_wrong_kind, own_rows, device_rows, field_rows, presentation_rows, data_rows, property_rows, value_rows};

use faults::FaultList;
use records::{Device, DeviceElement, Kind, ProcessData, Property, Span, ValuePresentation};

// An element number has twelve bits.
const MAX_NUMBER: u16 = 4095;

// Process data has the properties of bits 0 to 2 and the trigger methods of bits 0 to 4.
const MAX_PROPERTIES: u8 = 7;

const MAX_TRIGGERS: u8 = 31;

// The decimals of a value presentation.
const MAX_DECIMALS: u8 = 7;

fn is_unsound(p: &[u8], s: Span) -> bool
    ensures { result ≡ unsound p.now s }
{
    !text::is_sound_in(p, s.from, s.to)
}

// Rule 1: a device has the ID 0, and no other record has 0 or 65535.
pub fn is_bad_id(kind: Kind, id: u16) -> bool
    ensures { result ≡ bad_own (kind_code kind) id }
{
    match kind {
        Kind::Dvc => id != 0,
        _ => (id == 0) | (id == 65535),
    }
}

// Rules 1 and 2.
pub fn put_own(bad: bool, again: bool, number: u16, faults: &mut FaultList)
    requires { faults.old.count < 2 ^ 40 }
    ensures { Adds number (own_rows bad again) 2 faults.old faults.new }
{
    faults.put_if(bad, number, 1, 1);
    faults.put_if(again, number, 2, 1);
}

// Whether one of a device's fourteen label bytes breaks rule 5.
fn is_bad_label(p: &[u8], at: usize, j: usize) -> bool
    requires { at + j < 2 ^ 32 }
    ensures { result ≡ bad_label p.now at j }
{
    let byte = wire::read_u8(p, at + j);
    if j < 13 {
        return byte == 255;
    }
    byte != 255
}

// Rule 5 of a device: the localization label follows the structure label.
fn put_labels(p: &[u8], at: usize, number: u16, faults: &mut FaultList)
    requires { (at < 2 ^ 20) × (faults.old.count < 2 ^ 41) }
    ensures { Adds number (many 5 1 14 (bad_label p.now at) ∷ []) 14 faults.old faults.new }
{
    // A list of its own, which the compiler keeps in registers: behind the reference the count would be read again for each fault.
    let mut own = FaultList {
        buffer: &mut *faults.buffer,
        count: faults.count,
    };
    for j in 0..14 {
        own.put_if(is_bad_label(p, at, j), number, 5, (1 + j) as u16);
    }
    faults.count = own.count;
}

// Rules 3 to 5 of a device.
pub fn put_device(p: &[u8], d: Device, again: bool, number: u16, faults: &mut FaultList)
    requires { (d.structure.from < 2 ^ 20) × (faults.old.count < 2 ^ 40) }
    ensures { Adds number (device_rows p.now again d) 18 faults.old faults.new }
{
    faults.put_if(again, number, 3, 1);
    faults.put_if(is_unsound(p, d.designator), number, 4, 1);
    faults.put_if(is_unsound(p, d.version), number, 4, 2);
    faults.put_if(is_unsound(p, d.serial), number, 4, 3);
    put_labels(p, d.structure.from, number, faults);
}

fn is_bad_type(t: u8) -> bool
    ensures { result ≡ not (leb 1 t && leb t 7) }
{
    !((1 <= t) & (t <= 7))
}

// Whether a device element keeps rule 5.
pub fn is_fit_element(e: DeviceElement) -> bool
    ensures { result ≡ not (not (leb 1 e.element_type && leb e.element_type 7) || ltb 4095 e.number) }
{
    !(is_bad_type(e.element_type) | (MAX_NUMBER < e.number))
}

// Rules 4 and 5 of a device element.
pub fn put_fields(p: &[u8], e: DeviceElement, number: u16, faults: &mut FaultList)
    requires { faults.old.count < 2 ^ 40 }
    ensures { Adds number (field_rows p.now e) 3 faults.old faults.new }
{
    faults.put_if(is_unsound(p, e.designator), number, 4, 1);
    faults.put_if(is_bad_type(e.element_type), number, 5, 1);
    faults.put_if(MAX_NUMBER < e.number, number, 5, 2);
}

// Whether bits 1 and 2 of the properties, settable and control source, are both set.
fn is_bad_source(properties: u8) -> bool
    ensures { result ≡ bad_source properties }
{
    properties / 2 % 4 == 3
}

// Whether process data keeps rule 5.
pub fn is_fit_data(d: ProcessData) -> bool
    ensures { result ≡ not (ltb 7 d.properties || bad_source d.properties || ltb 31 d.triggers) }
{
    !(((MAX_PROPERTIES < d.properties) | is_bad_source(d.properties)) | (MAX_TRIGGERS < d.triggers))
}

// Rules 4 and 5 of process data.
pub fn put_data(p: &[u8], d: ProcessData, number: u16, faults: &mut FaultList)
    requires { faults.old.count < 2 ^ 40 }
    ensures { Adds number (data_rows p.now d) 4 faults.old faults.new }
{
    faults.put_if(is_unsound(p, d.designator), number, 4, 1);
    faults.put_if(MAX_PROPERTIES < d.properties, number, 5, 1);
    faults.put_if(is_bad_source(d.properties), number, 5, 2);
    faults.put_if(MAX_TRIGGERS < d.triggers, number, 5, 3);
}

// Rule 4 of a property.
pub fn put_property(p: &[u8], d: Property, number: u16, faults: &mut FaultList)
    requires { faults.old.count < 2 ^ 40 }
    ensures { Adds number (property_rows p.now d) 1 faults.old faults.new }
{
    faults.put_if(is_unsound(p, d.designator), number, 4, 1);
}

// The scale is judged by its bits: no NaN is within the range.
fn is_bad_scale(bits: u32) -> bool
    ensures { result ≡ bad_scale bits }
{
    (bits < 0x322BCC77) | (0x4CBEBC20 < bits)
}

// Whether a value presentation keeps rule 5.
pub fn is_fit_value(v: ValuePresentation) -> bool
    ensures { result ≡ not (bad_scale v.scale || ltb 7 v.decimals) }
{
    !(is_bad_scale(v.scale) | (MAX_DECIMALS < v.decimals))
}

// Rules 4 and 5 of a value presentation.
pub fn put_value(p: &[u8], v: ValuePresentation, number: u16, faults: &mut FaultList)
    requires { faults.old.count < 2 ^ 40 }
    ensures { Adds number (value_rows p.now v) 3 faults.old faults.new }
{
    faults.put_if(is_unsound(p, v.unit), number, 4, 1);
    faults.put_if(is_bad_scale(v.scale), number, 5, 1);
    faults.put_if(MAX_DECIMALS < v.decimals, number, 5, 2);
}

// Whether the ID of a presentation names no record. 65535 means that there is no presentation.
fn is_missing(id: u16, named: u16) -> bool
    ensures { result ≡ (not (eqb id 65535) && eqb named 0) }
{
    (id != 65535) & (named == 0)
}

fn is_wrong(right: bool, named: u16) -> bool
    ensures { result ≡ is_wrong_kind right named }
{
    (named != 0) & !right
}

fn is_presentation(kind: Option<Kind>) -> bool
    ensures { result ≡ eqb (mark_code kind) 5 }
{
    matches!(kind, Some(Kind::Dvp))
}

// Rules 6 and 7 of a presentation's ID, by the number of the record that it names and that record's kind.
pub fn put_presentation(
    id: u16,
    named: u16,
    kind: Option<Kind>,
    number: u16,
    faults: &mut FaultList,
)
    requires { faults.old.count < 2 ^ 41 }
    ensures { Adds number (presentation_rows id named (mark_code kind)) 2 faults.old faults.new }
{
    faults.put_if(is_missing(id, named), number, 6, 1);
    let wrong = is_wrong(is_presentation(kind), named);
    faults.put_if(wrong, number, 7, 1);
}
