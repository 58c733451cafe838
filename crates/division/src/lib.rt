// A description of pools that is independent of the reader: whole records, and bytes that are not. The functions do nothing: their
// contracts are the claims, so that the check's report names them.
#![tactic(auto)]

ghost use Rattle.std.specs.Prelude.{List, ℕ, ◌≤◌, length};
ghost use Rattle.division.specs.Claims.{Unique, Shortest, Exactly};
ghost use Rattle.division.specs.Written.{WholeAreWritten};

pub fn division_is_unique()
    ensures { Unique }
{}

pub fn no_record_is_shorter()
    ensures { Shortest }
{}

pub fn extents_are_exact()
    ensures { (p : List ℕ) (at : ℕ) → at ≤ length p → Exactly p at }
{}

pub fn whole_records_are_written()
    ensures { WholeAreWritten }
{}
