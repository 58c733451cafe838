// The fields of a record for C, from the pool and the place where the record starts. Texts and labels are given as places in the pool.
ghost use Rattle.std.specs.Prelude.{◌≡◌};
ghost use Rattle.views.specs.Fields.{device_of, element_of, entry_of, process_data_of, property_of, presentation_of};

use records::{Device, DeviceElement, ProcessData, Property, ValuePresentation};

pub fn lachsbrille_read_device(p: &[u8], start: u16) -> Device
    ensures { result ≡ device_of p.now start }
{
    views::device(p, start)
}

pub fn lachsbrille_read_element(p: &[u8], start: u16) -> DeviceElement
    ensures { result ≡ element_of p.now start }
{
    views::device_element(p, start)
}

// The ID that an entry of a device element's list names. Entries are counted from 0.
pub fn lachsbrille_read_entry(p: &[u8], start: u16, n: u16) -> u16
    ensures { result ≡ entry_of p.now start n }
{
    views::entry(p, start, n)
}

pub fn lachsbrille_read_process_data(p: &[u8], start: u16) -> ProcessData
    ensures { result ≡ process_data_of p.now start }
{
    views::process_data(p, start)
}

pub fn lachsbrille_read_property(p: &[u8], start: u16) -> Property
    ensures { result ≡ property_of p.now start }
{
    views::property(p, start)
}

// The scale is given as its bits, as in the pool.
pub fn lachsbrille_read_presentation(p: &[u8], start: u16) -> ValuePresentation
    ensures { result ≡ presentation_of p.now start }
{
    views::value_presentation(p, start)
}
