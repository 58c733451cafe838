// Little-endian numbers in bytes, parts of bytes, and copying. Every public function takes any slice, place and number, except `number`,
// `within` and `put`, whose callers know that the bytes are within the slice.
#![tactic(auto)]

ghost use Rattle.std.specs.Prelude.{◌≡◌, refl, ℕ, ◌+◌, ◌-◌, ◌≤◌, ◌<◌, ◌^◌, min, leb, length, get_or, take, drop};
ghost use Rattle.std.specs.Int.Signed.{mag};
ghost use Rattle.std.proofs.Common.{rules};
ghost use Rattle.wire.specs.Signed.{signed_reads_back};
ghost use Rattle.std.proofs.lemmas.List.Edits.{sets};
ghost use Rattle.wire.specs.Bytes.{bytes_of, number_in, signed_of, bits_of, laid};
ghost use Rattle.wire.specs.Parts.{place_in};
ghost use Rattle.wire.specs.ReadBack.{Unsigned, Signed32};

// A type of numbers that stand on the wire with their lowest byte first, each value as a number in so many bytes. There is no impl for u8:
// `read_u8` says more, since it names the byte itself. The impls for u16, u32 and u64 differ in the type and the width alone, and are
// written out: a default cannot say that a value is its own number, and no macro of the repository may write impls.
pub trait LittleEndian: Copy {
    // How many bytes a value takes.
    ghost WIDTH: { ℕ };

    // The value that a number in these bytes represents.
    ghost of_number: { ℕ → Self };

    // The number whose bytes represent a value.
    ghost number_of: { Self → ℕ };

    // What holds of each value of the type: a law ranges over every number.
    ghost in_range: { Self → Type 0 };

    const WIDTH: usize;

    fn from_number(number: u64) -> Self
        requires { number < 256 ^ WIDTH }
        ensures { result ≡ of_number number };

    fn to_number(self) -> u64
        ensures { result ≡ number_of self };

    // The number fits 64 bits.
    ghost fits_64: { WIDTH ≤ 8 };

    // A value that is written reads back the same.
    ghost reads_back: { (x : Self) → in_range x → (number_of x < 256 ^ WIDTH) × (of_number (number_of x) ≡ x) };
}

impl LittleEndian for u16 {
    ghost WIDTH = { 2 };

    ghost of_number = { λ n. n };

    ghost number_of = { λ n. n };

    ghost in_range = { λ n. n < 256 ^ 2 };

    ghost fits_64 = { Prim.search rules };

    ghost reads_back = { λ _ h. (h, refl) };

    const WIDTH: usize = 2;

    fn from_number(number: u64) -> u16 {
        number as u16
    }

    fn to_number(self) -> u64 {
        self as u64
    }
}

impl LittleEndian for u32 {
    ghost WIDTH = { 4 };

    ghost of_number = { λ n. n };

    ghost number_of = { λ n. n };

    ghost in_range = { λ n. n < 256 ^ 4 };

    ghost fits_64 = { Prim.search rules };

    ghost reads_back = { λ _ h. (h, refl) };

    const WIDTH: usize = 4;

    fn from_number(number: u64) -> u32 {
        number as u32
    }

    fn to_number(self) -> u64 {
        self as u64
    }
}

impl LittleEndian for u64 {
    ghost WIDTH = { 8 };

    ghost of_number = { λ n. n };

    ghost number_of = { λ n. n };

    ghost in_range = { λ n. n < 256 ^ 8 };

    ghost fits_64 = { Prim.search rules };

    ghost reads_back = { λ _ h. (h, refl) };

    const WIDTH: usize = 8;

    fn from_number(number: u64) -> u64 {
        number
    }

    fn to_number(self) -> u64 {
        self
    }
}

impl LittleEndian for i32 {
    ghost WIDTH = { 4 };

    ghost of_number = { signed_of 4 };

    ghost number_of = { bits_of 4 };

    ghost in_range = { λ z. mag z < 2 ^ 31 };

    ghost fits_64 = { Prim.search rules };

    ghost reads_back = { signed_reads_back };

    const WIDTH: usize = 4;

    fn from_number(number: u64) -> i32 {
        signed(number as u32)
    }

    fn to_number(self) -> u64 {
        bits(self) as u64
    }
}

// The number in w bytes that are all within the slice, computed from the highest byte down.
pub fn number(s: &[u8], at: usize, w: usize) -> u64
    requires { (w ≤ 8) × (at + w ≤ length s.now) }
    ensures { (result ≡ number_in w s.now at) × (result < 256 ^ w) }
{
    let mut x = 0u64;
    for b in s[at..at + w].iter().rev() {
        x = x * 256 + *b as u64;
    }
    x
}

// The number in w bytes; those past the end are left out.
fn number_at(s: &[u8], at: usize, w: usize) -> u64
    requires { w ≤ 8 }
    ensures { (result ≡ number_in w s.now at) × (result < 256 ^ w) }
{
    if s.len() < at {
        return 0;
    }
    if s.len() - at < w {
        return number(s, at, s.len() - at);
    }
    number(s, at, w)
}

// The byte at a place, 0 past the end.
pub fn read_u8(s: &[u8], at: usize) -> u8
    ensures { result ≡ get_or s.now at 0 }
{
    s.get(at).copied().unwrap_or(0)
}

// The number at a place; bytes past the end are left out.
pub fn read<T: LittleEndian>(s: &[u8], at: usize) -> T
    ensures { result ≡ T.of_number (number_in T.WIDTH s.now at) }
{
    T::from_number(number_at(s, at, T::WIDTH))
}

// The same if the caller knows that all the bytes are within the slice, without a test.
pub fn within<T: LittleEndian>(s: &[u8], at: usize) -> T
    requires { at + T.WIDTH ≤ length s.now }
    ensures { result ≡ T.of_number (number_in T.WIDTH s.now at) }
{
    T::from_number(number(s, at, T::WIDTH))
}

// The signed number that has these 32 bits in two's complement.
pub fn signed(x: u32) -> i32
    ensures { result ≡ signed_of 4 x }
{
    x.cast_signed()
}

// The 32 bits of a signed number, likewise.
pub fn bits(x: i32) -> u32
    ensures { result ≡ bits_of 4 x }
{
    x.cast_unsigned()
}

// Writes the w lowest bytes of x, if it is known that there is room for them.
pub fn put(d: &mut [u8], at: usize, w: usize, x: u64)
    requires { at + w ≤ length d.old }
    ensures { d.new ≡ sets d.old at (bytes_of w x) }
{
    let mut rest = x;
    for b in &mut d[at..at + w] {
        *b = (rest % 256) as u8;
        rest /= 256;
    }
}

// Whether n bytes fit from a place on; the test itself cannot overflow.
fn has_room(len: usize, at: usize, n: usize) -> bool
    ensures { result ≡ leb (at + n) len }
{
    at <= len && n <= len - at
}

// Writes all w bytes or none, and returns whether they are written.
fn put_at(d: &mut [u8], at: usize, w: usize, x: u64) -> bool
    ensures { (result ≡ leb (at + w) (length d.old)) × (d.new ≡ laid d.old at (bytes_of w x)) }
{
    if has_room(d.len(), at, w) {
        put(d, at, w, x);
        return true;
    }
    false
}

// Writes all bytes of a number at a place or none, and returns whether they are written.
pub fn write<T: LittleEndian>(d: &mut [u8], at: usize, x: T) -> bool
    ensures { (result ≡ leb (at + T.WIDTH) (length d.old)) × (d.new ≡ laid d.old at (bytes_of T.WIDTH (T.number_of x))) }
{
    put_at(d, at, T::WIDTH, x.to_number())
}

// Copies a slice into another that has room for it. A loop: `copy_from_slice` would make the library for C need memmove, too.
fn copy_in(from: &[u8], to: &mut [u8], at: usize)
    requires { at + length from.now ≤ length to.old }
    ensures { to.new ≡ sets to.old at from.now }
{
    for (i, byte) in from.iter().enumerate() {
        to[at + i] = *byte;
    }
}

// Copies one slice into another from a place on, whole or not at all, and returns whether it is copied.
pub fn copy(from: &[u8], to: &mut [u8], at: usize) -> bool
    ensures { (result ≡ leb (at + length from.now) (length to.old)) × (to.new ≡ laid to.old at from.now) }
{
    if has_room(to.len(), at, from.len()) {
        copy_in(from, to, at);
        return true;
    }
    false
}

// The bytes from one place up to another, as far as they are within the slice, as a part of the lent slice; none if the second place is
// before the first. Even an empty part points to the first place, or to the end of the slice if that place is past it.
pub fn part<'a>(s: &'a [u8], from: usize, to: usize) -> &'a [u8]
    ensures { (result.now ≡ take (to - from) (drop from s.now)) × (result.ref_ptr ≡ place_in s.entry (min from (length s.now))) }
{
    let end = s.len();
    let start = from.min(end);
    &s[start..to.clamp(start, end)]
}

// What is written reads back the same. The function does nothing: its contract is the claim, so that the report names it.
pub fn written_reads_back()
    ensures { Unsigned × Signed32 }
{}
