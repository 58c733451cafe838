// The claim about every list of session calls, for the functions in Rattle; `c_sessions` has it for those that C calls. The function
// does nothing: its contract is the claim, so that the check's report names it.
#![tactic(auto)]

ghost use Rattle.std.specs.Prelude.{List, ℕ};
ghost use Rattle.book.specs.Book.{Call};
ghost use Rattle.book.specs.Claim.{Booked};
ghost use Rattle.book.specs.InRattle.{in_rattle};

pub fn every_session_keeps_the_book()
    ensures { (staging kept : List ℕ) (cs : List Call) → Booked in_rattle staging kept cs }
{}
