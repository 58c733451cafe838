// What a pass over the records knows of rules 8 and 9, before it comes to a record.
ghost use Rattle.std.specs.Prelude.{◌≡◌, true, ◌&&◌, ◌||◌, ◌+◌, ◌*◌, ◌≤◌, ◌<◌, eqb, ltb, length};
ghost use Rattle.marks.specs.Bits.{bit_at};
ghost use Rattle.records.specs.Layout.{mark_code};
ghost use Rattle.naming.specs.Lists.{Blank};
ghost use Rattle.record_breaches.specs.Elements.{repeats_number, never_ends};
ghost use Rattle.pool_breaches.specs.Passing.{BreachesMarked, Sighted};

use naming::NamedRecords;
use record_breaches::{ElementRecord, PLACES};
use records::Kind;

// Either every record that breaks rule 8 or 9 has been marked (full), by its place in `again` or in `endless`. Or nothing is marked yet,
// and the element numbers so far, each at most 4095, are noted in `numbers`. `seen` has the stamps of the look at a list of entries, and
// may hold anything.
#[derive(Drop)]
pub(crate) struct Sight<'a> {
    pub(crate) numbers: &'a mut [u8],
    pub(crate) again: &'a mut [u8],
    pub(crate) endless: &'a mut [u8],
    pub(crate) seen: &'a mut [u8; PLACES],
    // A flag, and no enum of the two states: both would carry `again` and `endless`, which are blank before they are full.
    pub(crate) full: bool,
}

// Whether rules 8 and 9 of a device element cannot be decided by what has been noted so far: its number is over 4095, or its parent
// (given by record number and kind) is a device element that does not come before it.
fn is_unusual(element: u16, parent: u16, kind: Option<Kind>, i: usize) -> bool
    ensures { result ≡ (ltb 4095 element || (eqb (mark_code kind) 2 && ltb i parent)) }
{
    match kind {
        Some(Kind::Det) => (4095 < element) | (i < parent as usize),
        _ => 4095 < element,
    }
}

// Marks every record that breaks rule 8 or 9. It is rarely called, and needs lists that most checks do not need: they have a stack frame
// of their own. It asks for blank marks as `chains` does: they are not blank afterwards.
#[inline(never)]
fn mark_all(names: &NamedRecords, again: &mut [u8], endless: &mut [u8])
    requires { Blank again.old × Blank endless.old × (length names.now.records.starts.now ≤ 8 * length again.old) × (length names.now.records.starts.now ≤ 8 * length endless.old) }
    ensures { BreachesMarked names.now.records.pool.now names.now.records.starts.now again.new endless.new }
{
    chains::mark_repeats(&names.records, again);
    chains::mark_endless(names, endless);
}

impl Sight<'_> {
    // Has all records marked, if that is not done yet.
    fn mark(&mut self, element: &ElementRecord)
        requires { Sighted element.now.names.now.records element.now.i self.old }
        ensures { (self.new.full ≡ true) × Sighted element.now.names.now.records (element.now.i + 1) self.new }
    {
        if self.full {
            return;
        }
        // A copy, so that the caller's own need not lie in memory.
        let names = *element.names;
        mark_all(&names, self.again, self.endless);
        self.full = true;
    }

    // The marks of record i for rules 8 and 9.
    fn marks_of(&self, i: usize) -> (bool, bool)
        requires { (i < 8 * length self.now.again.now) × (i < 8 * length self.now.endless.now) }
        ensures { (result.0 ≡ bit_at self.now.again.now i) × (result.1 ≡ bit_at self.now.endless.now i) }
    {
        (
            marks::is_marked(self.again, i),
            marks::is_marked(self.endless, i),
        )
    }

    // Rules 8 and 9 of a device element: whether it breaks each. In the usual case its element number is noted, and that is all.
    pub(crate) fn judge(&mut self, element: &ElementRecord) -> (bool, bool)
        requires { Sighted element.now.names.now.records element.now.i self.old }
        ensures { (result.0 ≡ repeats_number element.now) × (result.1 ≡ never_ends element.now) × Sighted element.now.names.now.records (element.now.i + 1) self.new }
    {
        let number = element.fields.number;
        let unusual = is_unusual(number, element.parent, element.kind, element.i);
        if !(self.full | unusual) {
            return (marks::note(self.numbers, number as usize), false);
        }
        self.mark(element);
        self.marks_of(element.i)
    }
}
