// The list of entries of a device element: IDs, which are read from the pool and looked up when they are needed. No list of the records
// that they name is kept.
ghost use Rattle.std.specs.Prelude.{◌≡◌, ℕ, ◌+◌, ◌*◌, ◌≤◌, ◌<◌};
ghost use Rattle.wire.specs.Bytes.{number_in};
ghost use Rattle.views.specs.Fields.{entry_of};

use naming::NamedRecords;

// A device element starts at `at`, and its list of `size` entries begins at `from`.
#[derive(Clone, Copy)]
pub(crate) struct EntryList<'a> {
    pub(crate) names: NamedRecords<'a>,
    pub(crate) at: u16,
    pub(crate) from: usize,
    pub(crate) size: usize,
    pub(crate) ghost few: { size ≤ 32768 },
    pub(crate) ghost near: { from ≤ 65803 },
    pub(crate) ghost begins: { (m : ℕ) → entry_of names.records.pool.now at m ≡ number_in 2 names.records.pool.now (from + 2 * m) },
}

impl<'a> EntryList<'a> {
    ghost use Rattle.reference_rules.specs.Entries.{named_in};

    // The number of the record that entry m names; 0 for none. It is no `Option`: the lists by ID give this number, and `tag_at` takes it.
    pub(crate) fn named_at(&self, m: usize) -> u16
        requires { m < self.now.size }
        ensures { result ≡ named_in self.now m }
    {
        let id = wire::read::<u16>(self.names.records.pool, self.from + 2 * m);
        self.names.named_at(id)
    }
}
