// The fields of a record for C, from the pool and the place where the record starts. Texts and labels are given as places in the pool.
ghost use Rattle.std.specs.Prelude.{◌≡◌};
ghost use Rattle.views.specs.Fields.{device_of, element_of, entry_of, process_data_of, property_of, presentation_of};

use records::{Device, DeviceElement, ProcessData, Property, ValuePresentation};

#[unsafe(no_mangle)]
pub extern "C" fn lachsbrille_read_device(p: &[u8], start: u16) -> Device
    ensures { result ≡ device_of p.now start }
{
    terminal::objects::lachsbrille_read_device(p, start)
}

#[unsafe(no_mangle)]
pub extern "C" fn lachsbrille_read_element(p: &[u8], start: u16) -> DeviceElement
    ensures { result ≡ element_of p.now start }
{
    terminal::objects::lachsbrille_read_element(p, start)
}

// The ID that an entry of a device element's list names. Entries are counted from 0.
#[unsafe(no_mangle)]
pub extern "C" fn lachsbrille_read_entry(p: &[u8], start: u16, n: u16) -> u16
    ensures { result ≡ entry_of p.now start n }
{
    terminal::objects::lachsbrille_read_entry(p, start, n)
}

#[unsafe(no_mangle)]
pub extern "C" fn lachsbrille_read_process_data(p: &[u8], start: u16) -> ProcessData
    ensures { result ≡ process_data_of p.now start }
{
    terminal::objects::lachsbrille_read_process_data(p, start)
}

#[unsafe(no_mangle)]
pub extern "C" fn lachsbrille_read_property(p: &[u8], start: u16) -> Property
    ensures { result ≡ property_of p.now start }
{
    terminal::objects::lachsbrille_read_property(p, start)
}

// The scale is given as its bits, as in the pool.
#[unsafe(no_mangle)]
pub extern "C" fn lachsbrille_read_presentation(p: &[u8], start: u16) -> ValuePresentation
    ensures { result ≡ presentation_of p.now start }
{
    terminal::objects::lachsbrille_read_presentation(p, start)
}
