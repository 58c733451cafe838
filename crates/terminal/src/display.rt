// The displayed value for C: a presentation is passed as its three fields, and the value is written to a lent f64.
ghost use Rattle.std.specs.Prelude.{◌≡◌, leb};
ghost use Rattle.terminal.specs.Display.{Shows, presented};

use presentation::Presentation;

// The number of decimals in 8 bits: every number above 255 becomes 255, which is out of range too.
fn decimals_in(decimals: u32) -> u8
    ensures { leb result 7 ≡ leb decimals 7 }
{
    if 255 < decimals {
        return 255;
    }
    decimals as u8
}

// The result is 0, or 50 with a value of 0 if the scale or the decimals are out of range.
pub fn lachsbrille_displayed(
    value: i32,
    offset: i32,
    scale: f32,
    decimals: u32,
    res: &mut f64,
) -> u32
    ensures { Shows value (presented offset scale decimals) result res.new }
{
    let p = Presentation {
        offset,
        scale,
        decimals: decimals_in(decimals),
    };
    let displayed = presentation::display(value, p);
    *res = presentation::value_of(displayed);
    presentation::number_of(displayed)
}
