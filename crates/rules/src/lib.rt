// The rule table. The function does nothing: its contract is the claim, so that the check's report names it.
#![tactic(auto)]

ghost use Rattle.std.specs.Prelude.{List, ℕ};
ghost use Rattle.pool.specs.Reading.{Entry};
ghost use Rattle.rules.specs.Listed.{Listed};

// The breach list holds every breach, each once and in order, and nothing else.
pub fn breaches_are_listed()
    ensures { (p : List ℕ) (es : List Entry) → Listed p es }
{}
