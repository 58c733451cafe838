// A table that is filled by a list of records which lives only while a core answers by it.
ghost use Rattle.std.specs.Prelude.{◌≡◌, ◌≤◌, ℕ, List, length};
ghost use Rattle.std.specs.Fn.{FnOnceTakesAtMut, FnOnceReturnsAtMut};
ghost use Rattle.pool.specs.Walk.{Suffices, Reaches};
ghost use Rattle.working_table.specs.Rows.{gathered, Fillable};
ghost use Rattle.working_table.specs.declared.by_list.Counted.{Counted};

use super::Record;
use pool::{LONG_LIST, SHORT_LIST, SHORT_POOL};

// An answer about a pool, and how many of its records are listed, so that as many entries of the table can be filled.
#[derive(Clone, Copy)]
pub struct Counted<T> {
    pub records: usize,
    pub answer: T,
}

// With a list of a fixed length, which has room for every record of the pool. That it has is asked of the list alone here and below, as
// `pool::list_for` says why.
fn fill_with<const N: usize, T, F: FnOnce(&mut [u16]) -> Counted<T>>(
    p: &[u8],
    table: &mut [Record],
    core: F,
) -> T
    requires small { N ≤ LONG_LIST }
    requires long { Suffices N p.now }
    requires callable { (starts : List ℕ) → Reaches starts p.now → FnOnceTakesAtMut F.FnOnce core starts }
    requires fillable { (before after : List ℕ) (counted : Counted T) → Reaches before p.now → FnOnceReturnsAtMut F.FnOnce core before counted after → Fillable p.now after counted.records table.old }
    ensures { (before : List ℕ) × (after : List ℕ) × (counted : Counted T) × Reaches before p.now × FnOnceReturnsAtMut F.FnOnce core before counted after × (result ≡ counted.answer) × (table.new ≡ gathered p.now after counted.records table.old) }
{
    let mut starts = [0u16; N];
    let counted = core(&mut starts);
    super::gather(p, &starts, counted.records, table);
    counted.answer
}

// Lends a core a list that is long enough for every record of a pool, fills the table with the records that the core has listed there,
// and returns the core's answer. A list with room for every pool takes long to clear, so a short pool gets a short one, in a frame of its
// own.
pub fn fill<T, F: FnOnce(&mut [u16]) -> Counted<T>>(p: &[u8], table: &mut [Record], core: F) -> T
    requires callable { (starts : List ℕ) → Reaches starts p.now → FnOnceTakesAtMut F.FnOnce core starts }
    requires fillable { (before after : List ℕ) (counted : Counted T) → Reaches before p.now → FnOnceReturnsAtMut F.FnOnce core before counted after → Fillable p.now after counted.records table.old }
    ensures { (before : List ℕ) × (after : List ℕ) × (counted : Counted T) × Reaches before p.now × FnOnceReturnsAtMut F.FnOnce core before counted after × (result ≡ counted.answer) × (table.new ≡ gathered p.now after counted.records table.old) }
{
    if p.len() <= SHORT_POOL {
        return fill_with::<SHORT_LIST, T, F>(p, table, core);
    }
    fill_with::<LONG_LIST, T, F>(p, table, core)
}
