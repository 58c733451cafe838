// Rule 12: a list of entries names no DDI twice. Inside a walk over the entries there is a walk over the earlier ones, one at a time, which
// is left at the first match. Here it goes over all earlier ones, for a short list; `links.rt` has the walk for a long one, whose lists
// take longer to clear than a short list takes to walk.
ghost use Rattle.std.specs.Prelude.{◌≡◌, false, [], ◌∷◌, ℕ, ◌+◌, ◌≤◌, ◌<◌, ◌^◌, length};
ghost use Rattle.faults.specs.Rows.{many};
ghost use Rattle.faults.specs.Adding.{Adds};
ghost use Rattle.rules.specs.Table.{doubled};
ghost use Rattle.reference_rules.specs.Entries.{tag_in};

use super::entries::EntryList;
use faults::FaultList;

// A short list: each entry is compared with all earlier ones that name process data or a property, by their DDIs. A DDI is kept once. The
// inner walk is a loop that its label leaves, and no `contains`, since docs/FORMS.md has this form for rule 12.
fn walk_seen(list: &EntryList, seen: &mut [u16], number: u16, faults: &mut FaultList)
    requires { (list.now.size ≤ length seen.old) × (faults.old.count < 2 ^ 41) }
    ensures { Adds number (many 12 2 list.now.size (doubled (tag_in list.now)) ∷ []) list.now.size faults.old faults.new }
{
    let mut kept: usize = 0;
    'entries: for m in 0..list.size {
        let tag = super::tag_at(&list.names.records, list.named_at(m));
        if tag == 0 {
            continue 'entries;
        }
        let ddi = (tag - 1) as u16;
        for known in &seen[..kept] {
            if *known == ddi {
                faults.put_if(true, number, 12, (2 + m) as u16);
                continue 'entries;
            }
        }
        seen[kept] = ddi;
        kept += 1;
    }
}

// The same with a list of its own, which takes stack only here.
fn put_short(list: &EntryList, number: u16, faults: &mut FaultList)
    requires { (list.now.size ≤ 64) × (faults.old.count < 2 ^ 41) }
    ensures { Adds number (many 12 2 list.now.size (doubled (tag_in list.now)) ∷ []) list.now.size faults.old faults.new }
{
    let mut seen = [0u16; 64];
    walk_seen(list, &mut seen, number, faults);
}

// Rule 12 of the entries, unless fewer than two of them name process data or a property.
pub(crate) fn put_doubled(tagged: usize, list: &EntryList, number: u16, faults: &mut FaultList)
    requires { (tagged < 2 → (m : ℕ) → m < list.now.size → doubled (tag_in list.now) m ≡ false) × (faults.old.count < 2 ^ 41) }
    ensures { Adds number (many 12 2 list.now.size (doubled (tag_in list.now)) ∷ []) list.now.size faults.old faults.new }
{
    if tagged < 2 {
        return;
    }
    if list.size <= 64 {
        return put_short(list, number, faults);
    }
    super::links::walk_long(list, number, faults);
}
