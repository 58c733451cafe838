// The displayed value for C: a presentation is passed as its three fields, and the value is written to a lent f64.
ghost use Rattle.terminal.specs.Display.{Shows, presented};

// The result is 0, or 50 with a value of 0 if the scale or the decimals are out of range.
#[unsafe(no_mangle)]
pub extern "C" fn lachsbrille_displayed(
    value: i32,
    offset: i32,
    scale: f32,
    decimals: u32,
    res: &mut f64,
) -> u32
    ensures { Shows value (presented offset scale decimals) result res.new }
{
    terminal::display::lachsbrille_displayed(value, offset, scale, decimals, res)
}
