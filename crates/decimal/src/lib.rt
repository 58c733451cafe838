// Bytes put into lent memory one after the other, and numbers in decimal digits, which are ASCII characters.
#![tactic(auto)]

ghost use Rattle.std.specs.Prelude.{◌≡◌};
ghost use Rattle.wire.specs.Bytes.{laid};
ghost use Rattle.decimal.specs.Digits.{digits, place_after};
ghost use Rattle.decimal.specs.Reading.{Spelt, OneSpelling};

// Copies bytes into a buffer at a place, and returns the place after them. If they do not fit, nothing is copied and the place is the same.
// The buffer and the place stay two parameters here, in `listing` and in `pool_listing`: README and docs/ name these crates' functions.
pub fn put_bytes(out: &mut [u8], at: usize, bytes: &[u8]) -> usize
    ensures { (out.new ≡ laid out.old at bytes.now) × (result ≡ place_after out.old at bytes.now) }
{
    if wire::copy(bytes, out, at) {
        return at + bytes.len();
    }
    at
}

// The same for the digits of a number.
pub fn put(out: &mut [u8], at: usize, n: u64) -> usize
    ensures { (out.new ≡ laid out.old at (digits n)) × (result ≡ place_after out.old at (digits n)) }
{
    let mut text = [0u8; 20];
    let k = io::decimal(n, &mut text);
    put_bytes(out, at, &text[..k])
}

// A reader reads the digits as the number, and no other bytes are its decimal digits. The function does nothing: its contract is the claim.
pub fn digits_read_back()
    ensures { Spelt × OneSpelling }
{}
