// A set of numbers as a list of bits, eight in a byte: a number in the set is marked. The list is lent, and passed as it is: a struct would
// hold this one slice and nothing else.
#![tactic(auto)]

ghost use Rattle.std.specs.Prelude.{◌≡◌, ◌||◌, ℕ, ◌*◌, ◌<◌, eqb, length};
ghost use Rattle.marks.specs.Bits.{bit_at};

// Whether the number i is marked.
pub fn is_marked(marks: &[u8], i: usize) -> bool
    requires { i < 8 * length marks.now }
    ensures { result ≡ bit_at marks.now i }
{
    (marks[i / 8] >> (i % 8)) % 2 == 1
}

// Marks the number i.
pub fn mark(marks: &mut [u8], i: usize)
    requires { i < 8 * length marks.old }
    ensures { (length marks.new ≡ length marks.old) × ((j : ℕ) → j < 8 * length marks.old → bit_at marks.new j ≡ (eqb j i || bit_at marks.old j)) }
{
    marks[i / 8] |= 1u8 << (i % 8);
}

// Marks the number i, and returns whether it was marked before.
pub fn note(marks: &mut [u8], i: usize) -> bool
    requires { i < 8 * length marks.old }
    ensures { (result ≡ bit_at marks.old i) × (length marks.new ≡ length marks.old) × ((j : ℕ) → j < 8 * length marks.old → bit_at marks.new j ≡ (eqb j i || bit_at marks.old j)) }
{
    let before = is_marked(marks, i);
    mark(marks, i);
    before
}
