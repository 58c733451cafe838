// The claim about every list of session calls, for the functions that a terminal calls: those of C. The function does nothing: its
// contract is the claim, so that the check's report names it.
#![tactic(auto)]

ghost use Rattle.std.specs.Prelude.{List, ℕ};
ghost use Rattle.book.specs.Book.{Call};
ghost use Rattle.book.specs.Claim.{Booked};
ghost use Rattle.c_sessions.specs.InC.{in_c};

pub fn every_caller_keeps_the_book()
    ensures { (staging kept : List ℕ) (cs : List Call) → Booked in_c staging kept cs }
{}
