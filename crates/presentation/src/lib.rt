// The value that a display shows: (value + offset) times scale, rounded once.
#![tactic(auto)]

ghost use Rattle.std.specs.Prelude.{◌≡◌, ◌+ℤ◌};
ghost use Rattle.std.specs.Float.{binary64};
ghost use Rattle.std.specs.Float.Ieee.{of_int};
ghost use Rattle.presentation.specs.Display.{in_range, answer_of, Shown};
ghost use Rattle.presentation.specs.Fixed.{BitsAreFixed, FiftyIsRuleFive};

#[derive(Clone, Copy)]
pub struct Presentation {
    pub offset: i32,
    pub scale: f32,
    pub decimals: u8,
}

// The scale is judged by its bits. A NaN is excluded first: the logic has no bits for it, and none of its bit patterns is within the range.
fn is_in_range(scale: f32) -> bool
    ensures { result ≡ in_range scale }
{
    if scale.is_nan() {
        return false;
    }
    let bits = f32::to_bits(scale);
    (0x322BCC77 <= bits) & (bits <= 0x4CBEBC20)
}

// The sum of two numbers of 32 bits has at most 33, which an f64 holds exactly.
fn exact_sum(value: i32, offset: i32) -> f64
    ensures { result ≡ of_int binary64 (value +ℤ offset) }
{
    let sum = (value as i64) + (offset as i64);
    sum as f64
}

// The displayed value, None if the scale or the decimals are out of range. Both factors are exact, so that only the product is rounded.
pub fn display(value: i32, presentation: Presentation) -> Option<f64>
    ensures { Shown value presentation (answer_of result) }
{
    let Presentation {
        offset,
        scale,
        decimals,
    } = presentation;
    if !is_in_range(scale) {
        return None;
    }
    if 7 < decimals {
        return None;
    }
    let sum = exact_sum(value, offset);
    let factor = scale as f64;
    Some(sum * factor)
}

// Document 01's number, 0 if a value is shown. It and the next function are no `From`: neither an `Option` nor a number is a type of this
// crate.
pub fn number_of(displayed: Option<f64>) -> u32
    ensures { result ≡ (answer_of displayed).number }
{
    match displayed {
        Some(_) => 0,
        None => 50,
    }
}

// The value, 0 if none is shown.
pub fn value_of(displayed: Option<f64>) -> f64
    ensures { result ≡ (answer_of displayed).value }
{
    displayed.unwrap_or(0.0)
}

// The functions below do nothing: their contracts are claims, so that the report names them.

// Only one number can be the bits of the value.
pub fn bits_are_fixed()
    ensures { BitsAreFixed }
{}

// 50 is given exactly if the scale or the decimals break rule 5.
pub fn fifty_is_rule_five()
    ensures { FiftyIsRuleFive }
{}
