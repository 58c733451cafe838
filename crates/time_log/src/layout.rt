// Where the parts of a log record are.
ghost use Rattle.std.specs.Prelude.{◌≡◌, ℕ, ◌+◌, ◌≤◌, ◌<◌, length, get_or, MatchResult};
ghost use Rattle.time_log.specs.Layout.{place_of, record_length};
ghost use Rattle.time_log.specs.Contents.{values_counted, extent_of};

use super::Refusal;

// The widths of the optional fields, in their order.
pub const WIDTHS: [usize; 9] = [4, 4, 4, 1, 2, 2, 1, 4, 2];

// The places of a layout's optional fields, which follow each other, and last that of the count byte after them.
#[derive(Clone, Copy)]
pub struct Places {
    pub layout: u32,
    pub starts: [usize; 10],
    pub ghost placed: { (k : ℕ) → k ≤ 9 → get_or starts k 0 ≡ place_of layout k },
}

// A layout has nine marks, the lowest bits.
pub fn judge_layout(layout: u32) -> Result<(), Refusal>
    ensures { MatchResult result (λ _. layout ≤ 511) (λ refusal. (511 < layout) × (refusal ≡ Refusal.BadLayout)) }
{
    if 511 < layout {
        return Err(Refusal::BadLayout);
    }
    Ok(())
}

// By index: each place is the one before it plus a width, so the step reads what the step before it wrote.
pub fn places_of(layout: u32) -> Places
    ensures { result.layout ≡ layout }
{
    let mut starts = [6usize; 10];
    for k in 0..9usize {
        starts[k + 1] = starts[k] + ((layout >> k) % 2) as usize * WIDTHS[k];
    }
    Places { layout, starts }
}

impl Places {
    // The place of the count byte.
    pub fn count(&self) -> usize
        ensures { result ≡ place_of self.now.layout 9 }
    {
        self.starts[9]
    }

    // The length of a record with n values.
    pub fn length_with(&self, n: usize) -> usize
        requires { n ≤ 255 }
        ensures { result ≡ record_length self.now.layout n }
    {
        self.count() + 1 + 5 * n
    }

    // How many values the record has that the bytes start with, if it is whole.
    pub fn values_in(&self, bytes: &[u8]) -> Result<usize, Refusal>
        ensures { MatchResult result
            (λ n. (n ≡ values_counted self.now.layout bytes.now) × (n ≤ 255) × (extent_of self.now.layout bytes.now ≤ length bytes.now))
            (λ refusal. (refusal ≡ Refusal.CutRecord) × (length bytes.now < extent_of self.now.layout bytes.now)) }
    {
        if bytes.len() <= self.count() {
            return Err(Refusal::CutRecord);
        }
        let n = bytes[self.count()] as usize;
        if bytes.len() < self.length_with(n) {
            return Err(Refusal::CutRecord);
        }
        Ok(n)
    }
}
