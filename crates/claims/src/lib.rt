// The claims about reading, checking, the fields of a record, and the displayed value's refusal by the rule table. The functions do
// nothing: their contracts are the claims, so that the check's report names them.
#![tactic(auto)]

ghost use Rattle.std.specs.Prelude.{List, ℕ};
ghost use Rattle.claims.specs.Reads.{Reads};
ghost use Rattle.claims.specs.Checks.{Checks};
ghost use Rattle.claims.specs.Parts.{FieldsAreParts};
ghost use Rattle.claims.specs.Displayed.{FiftyIsABreach};

pub fn reading_is_division()
    ensures { (p : List ℕ) (room : ℕ) → Reads p room }
{}

pub fn checking_lists_breaches()
    ensures { Checks }
{}

pub fn fields_are_parts()
    ensures { FieldsAreParts }
{}

pub fn fifty_is_a_breach()
    ensures { FiftyIsABreach }
{}
