// What IDs name, by short lists: a head for each slot of IDs, and from each record a link to an earlier one of the same slot.
// Links lead to smaller numbers only, so every walk along them ends. The lists are lent: the caller chooses the number of heads,
// and no ID is too large for them.
#![tactic(auto)]

ghost use Rattle.std.specs.Prelude.{◌≡◌, true, not, suc, ◌+◌, ◌≤◌, ◌<◌, eqb, length};
ghost use Rattle.records.specs.Layout.{kind_code, mark_code};
ghost use Rattle.pool.specs.Walk.{entries_of, Divided};
ghost use Rattle.naming.specs.Records.{id_at, kind_at};
ghost use Rattle.naming.specs.Naming.{first_of, named, is_data_kind, kind_of, parent_of};
ghost use Rattle.naming.specs.Lists.{id_in, Blank};
ghost use Rattle.naming.specs.Chained.{slot, opens, Chained, Names, Distinct, Owned};
ghost use Rattle.naming.specs.Once.{Divided-prop, Names-prop, Owned-prop};

use records::Kind;

// A pool with the starts of its records, in order, and behind them the end of the last one. That an index or a number is one of a record
// is asked by each function: it is a number of its own, with which a walk goes on.
#[derive(Clone, Copy)]
pub struct RecordList<'a> {
    pub pool: &'a [u8],
    pub starts: &'a [u16],
    pub ghost divided: { Divided pool.now starts.now } by { Divided-prop pool.now starts.now },
}

// Records with the lists by which an ID names one of them, and what `name_ids` returned for them. The functions that fill the lists are
// lent them apart from the records: they are blank before and linked afterwards, so no struct with a ghost fact can hold them meanwhile.
#[derive(Clone, Copy)]
pub struct NamedRecords<'a> {
    pub records: RecordList<'a>,
    pub heads: &'a [u16],
    pub next: &'a [u16],
    pub owned: bool,
    pub ghost linked: { Names records.pool.now records.starts.now heads.now next.now } by { Names-prop records.pool.now records.starts.now heads.now next.now },
    pub ghost own_ids: { owned ≡ true → Owned (entries_of records.pool.now records.starts.now) } by { Owned-prop owned (entries_of records.pool.now records.starts.now) },
}

// The slot of an ID, given the number of heads.
fn slot_of(id: u16, heads: usize) -> usize
    requires { 0 < heads }
    ensures { result ≡ slot heads id }
{
    id as usize & (heads - 1)
}

impl<'a> RecordList<'a> {
    ghost use Rattle.naming.specs.Entries.{entries_in};

    // The ID of record i.
    pub fn id_at(&self, i: usize) -> u16
        requires { i + 1 < length self.now.starts.now }
        ensures { result ≡ id_in self.now.pool.now self.now.starts.now i }
    {
        wire::within::<u16>(self.pool, self.starts[i] as usize + 3)
    }

    // The kind of record i.
    pub fn record_kind(&self, i: usize) -> Kind
        requires { i + 1 < length self.now.starts.now }
        ensures { kind_code result ≡ kind_at (entries_in self.now) i }
    {
        records::view::marked(self.pool, self.starts[i])
    }

    // The kind of the record with a number from 1.
    pub fn kind_at(&self, number: u16) -> Option<Kind>
        requires { number < length self.now.starts.now }
        ensures { mark_code result ≡ kind_of (entries_in self.now) number }
    {
        if number == 0 {
            return None;
        }
        Some(records::view::marked(self.pool, self.starts[number as usize - 1]))
    }

    // Whether the record with a number from 1 is of a kind. The kind's number is compared, which takes no branch.
    pub fn is_at(&self, number: u16, kind: Kind) -> bool
        requires { number < length self.now.starts.now }
        ensures { result ≡ eqb (kind_of (entries_in self.now) number) (kind_code kind) }
    {
        if number == 0 {
            return false;
        }
        records::view::kind_number(self.pool, self.starts[number as usize - 1]) == u16::from(kind)
    }

    // Whether the record with a number from 1 is process data or a property.
    pub fn is_data_at(&self, number: u16) -> bool
        requires { number < length self.now.starts.now }
        ensures { result ≡ is_data_kind (kind_of (entries_in self.now) number) }
    {
        if number == 0 {
            return false;
        }
        records::view::is_data(self.pool, self.starts[number as usize - 1])
    }

    // The number of the first of `count` records with an ID, by the lists for these records; 0 for none, and no `Option`, as in the lists
    // themselves. A `for` has no place here: the walk follows links.
    fn find(&self, count: usize, heads: &[u16], next: &[u16], id: u16) -> u16
        requires { (count < length self.now.starts.now) × (count < length next.now) × Chained (id_in self.now.pool.now self.now.starts.now) count heads.now next.now }
        ensures { result ≡ first_of (id_in self.now.pool.now self.now.starts.now) id count }
    {
        let head = slot_of(id, heads.len());
        let mut r = heads[head];
        while r != 0 {
            let at = r as usize;
            if self.id_at(at - 1) == id {
                return r;
            }
            r = next[at];
        }
        0
    }

    // Links record i to the last earlier one of its slot, or marks it if an earlier record has its ID. Returns whether none has.
    fn enter(&self, i: usize, heads: &mut [u16], next: &mut [u16]) -> bool
        requires { (i + 1 < length self.now.starts.now) × (length self.now.starts.now ≤ length next.old) × Chained (id_in self.now.pool.now self.now.starts.now) i heads.old next.old }
        ensures { (result ≡ opens (id_in self.now.pool.now self.now.starts.now) i) × Chained (id_in self.now.pool.now self.now.starts.now) (i + 1) heads.new next.new }
    {
        let id = self.id_at(i);
        let first = self.find(i, heads, next, id);
        let at = i + 1;
        if first != 0 {
            next[at] = 65535;
            return false;
        }
        let head = slot_of(id, heads.len());
        next[at] = heads[head];
        heads[head] = at as u16;
        true
    }

    // Lists the records by ID, and returns whether all IDs are distinct.
    fn link_ids(&self, heads: &mut [u16], next: &mut [u16]) -> bool
        requires { (length self.now.starts.now ≤ length next.old) × (0 < length heads.old) × Blank heads.old }
        ensures { Names self.now.pool.now self.now.starts.now heads.new next.new × (result ≡ true → Distinct self.now.pool.now self.now.starts.now) }
    {
        let count = self.starts.len() - 1;
        let mut distinct = true;
        for i in 0..count {
            if !self.enter(i, heads, next) {
                distinct = false;
            }
        }
        distinct
    }

    // Whether every record other than a device has an ID of its own (rules 1 and 2): all IDs are distinct, none is 65535, and a device
    // has 0.
    fn are_owned(&self, heads: &[u16], next: &[u16], distinct: bool) -> bool
        requires { Names self.now.pool.now self.now.starts.now heads.now next.now × (distinct ≡ true → Distinct self.now.pool.now self.now.starts.now) }
        ensures { result ≡ true → Owned (entries_in self.now) }
    {
        if !distinct {
            return false;
        }
        let count = self.starts.len() - 1;
        if self.find(count, heads, next, 65535) != 0 {
            return false;
        }
        let first = self.find(count, heads, next, 0);
        self.is_at(first, Kind::Dvc)
    }

    // Lists the records by ID. If it returns true, every record other than a device has an ID of its own, and rules 1 and 2 need not be
    // tested for each of them; if false, some of them may still have one.
    pub fn name_ids(&self, heads: &mut [u16], next: &mut [u16]) -> bool
        requires { (length self.now.starts.now ≤ length next.old) × (0 < length heads.old) × Blank heads.old }
        ensures { Names self.now.pool.now self.now.starts.now heads.new next.new × (result ≡ true → Owned (entries_in self.now)) }
    {
        let distinct = self.link_ids(heads, next);
        self.are_owned(heads, next, distinct)
    }

    // The records with lists by which their IDs name them, filled here and lent on.
    pub fn link(self, heads: &'a mut [u16], next: &'a mut [u16]) -> NamedRecords<'a>
        requires { (length self.starts.now ≤ length next.old) × (0 < length heads.old) × Blank heads.old }
        ensures { result.records ≡ self.entry }
    {
        let owned = self.name_ids(heads, next);
        NamedRecords {
            records: self,
            heads,
            next,
            owned,
        }
    }
}

impl<'a> NamedRecords<'a> {
    ghost use Rattle.naming.specs.Entries.{entries_in};

    // The number of the record that an ID names; 0 for none. It is no `Option`, since the lists keep numbers with 0 for none, and callers
    // look a record up by its number without asking whether there is one.
    pub fn named_at(&self, id: u16) -> u16
        ensures { result ≡ named (entries_in self.now.records) id }
    {
        if id == 65535 {
            return 0;
        }
        let records = &self.records;
        records.find(records.starts.len() - 1, self.heads, self.next, id)
    }

    // Rule 2: whether an earlier record has the ID of record i. Its link is then 65535.
    pub fn repeats_id(&self, i: usize) -> bool
        requires { i + 1 < length self.now.records.starts.now }
        ensures { result ≡ not (eqb (first_of (id_at (entries_in self.now.records)) (id_at (entries_in self.now.records) i) (length (entries_in self.now.records))) (suc i)) }
    {
        self.next[i + 1] == 65535
    }

    // The number of the device element that is the parent of the record with a number; 0 where the chain of parents ends. It is no
    // `Option`, as with `named_at`: the walks up the chains keep these numbers in a list.
    pub fn parent_at(&self, number: u16) -> u16
        requires { number < length self.now.records.starts.now }
        ensures { result ≡ parent_of self.now.records.pool.now (entries_in self.now.records) number }
    {
        let records = &self.records;
        if !records.is_at(number, Kind::Det) {
            return 0;
        }
        let element = views::device_element(records.pool, records.starts[number as usize - 1]);
        let parent = self.named_at(element.parent);
        if !records.is_at(parent, Kind::Det) {
            return 0;
        }
        parent
    }
}
