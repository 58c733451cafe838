// Rule 12 of a long list: each entry is compared with the earlier ones whose DDI has the same remainder, one at a time. The inner walk is
// left at the first match. An entry that names the same record as an earlier one needs no walk: the record already has a link.
ghost use Rattle.std.specs.Prelude.{◌≡◌, [], ◌∷◌, ◌+◌, ◌≤◌, ◌<◌, ◌^◌, length};
ghost use Rattle.faults.specs.Rows.{many};
ghost use Rattle.faults.specs.Adding.{Adds};
ghost use Rattle.naming.specs.Lists.{Blank};
ghost use Rattle.rules.specs.Table.{doubled};
ghost use Rattle.reference_rules.specs.Entries.{tag_in};

use super::entries::EntryList;
use faults::FaultList;
use pool::LONG_LIST;

// The walk, with lists that are lent. `tops` has for each remainder the number of the record that was entered last, and `links` has for the
// number of each process data or property
//     0      as long as no entry has named it,
//     1 + k  if it was entered: k is the record that was entered before it with the same remainder, or 0 if it was the first,
//     65535  if it was named and not entered, since another record with the same DDI had been entered before.
// So a DDI is entered once, and the links are walked once for each record. The inner walk follows links, which no `for` does.
fn walk_links(
    list: &EntryList,
    tops: &mut [u16],
    links: &mut [u16],
    number: u16,
    faults: &mut FaultList,
)
    requires { (length tops.old ≡ 2048) × Blank tops.old × (length list.now.names.records.starts.now ≤ length links.old) × Blank links.old × (faults.old.count < 2 ^ 41) }
    ensures { Adds number (many 12 2 list.now.size (doubled (tag_in list.now)) ∷ []) list.now.size faults.old faults.new }
{
    let records = &list.names.records;
    'entries: for m in 0..list.size {
        let named = list.named_at(m);
        let tag = super::tag_at(records, named);
        if tag == 0 {
            continue 'entries;
        }
        if links[named as usize] != 0 {
            faults.put_if(true, number, 12, (2 + m) as u16);
            continue 'entries;
        }
        let b = tag % 2048;
        let mut k = tops[b];
        while k != 0 {
            if super::ddi_at(records, k) as usize + 1 == tag {
                links[named as usize] = 65535;
                faults.put_if(true, number, 12, (2 + m) as u16);
                continue 'entries;
            }
            k = links[k as usize] - 1;
        }
        links[named as usize] = 1 + tops[b];
        tops[b] = named;
    }
}

// The same with lists of its own, which take stack only if there is a long list.
pub(crate) fn walk_long(list: &EntryList, number: u16, faults: &mut FaultList)
    requires { faults.old.count < 2 ^ 41 }
    ensures { Adds number (many 12 2 list.now.size (doubled (tag_in list.now)) ∷ []) list.now.size faults.old faults.new }
{
    let mut tops = [0u16; 2048];
    let mut links = [0u16; LONG_LIST];
    walk_links(list, &mut tops, &mut links, number, faults);
}
