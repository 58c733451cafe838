// A fault buffer of numbers: each fault is its record, rule and item, followed by the object ID and the parent ID of its record. A fault
// is written if it fits, and always counted. The functions that find faults write zeros for the two IDs; `objects` completes them.
#![tactic(auto)]

mod objects;

ghost use Rattle.std.specs.Prelude.{◌≡◌, ◌+◌, ◌≤◌, ◌<◌, ◌^◌, true, [], ◌∷◌};
ghost use Rattle.faults.specs.Faults.{fault};
ghost use Rattle.faults.specs.Rows.{one, if_so};
ghost use Rattle.faults.specs.Emission.{Emits};
ghost use Rattle.faults.specs.Adding.{Adds};

pub use objects::name_objects;

// How many numbers a fault takes in a buffer.
pub const WIDTH: usize = 5;

// The faults that a check has found so far: how many, and the buffer that holds the first of them. The number of a fault's record is no
// part of it, since the functions that put faults would then have to promise besides that they leave it. That the count is below a bound
// is asked by each of them and no ghost fact, since it grows from call to call.
#[derive(Drop)]
pub struct FaultList<'a> {
    pub buffer: &'a mut [u16],
    pub count: usize,
}

impl FaultList<'_> {
    // Counts a fault, and writes it if it fits: its three numbers, and zeros in the place of the two IDs.
    fn put(&mut self, number: u16, rule: u16, item: u16)
        requires { self.old.count < 2 ^ 48 }
        ensures { (self.new.buffer.ghost_name ≡ self.old.buffer.ghost_name) × Emits self.old.buffer.now self.old.count (if_so true (fault number rule item)) self.new.buffer.now self.new.count × (self.new.count ≤ self.old.count + 1) }
    {
        // The five numbers are stored one by one: an array of them, made only to be copied, reads no plainer.
        let i = self.count * WIDTH;
        if i + WIDTH <= self.buffer.len() {
            self.buffer[i] = number;
            self.buffer[i + 1] = rule;
            self.buffer[i + 2] = item;
            self.buffer[i + 3] = 0;
            self.buffer[i + 4] = 0;
        }
        self.count += 1;
    }

    // The same if there is a breach; else nothing changes.
    pub fn put_if(&mut self, breach: bool, number: u16, rule: u16, item: u16)
        requires { self.old.count < 2 ^ 48 }
        ensures { Adds number (one rule item breach ∷ []) 1 self.old self.new }
    {
        if breach {
            self.put(number, rule, item);
        }
    }
}
