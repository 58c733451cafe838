// What texts and labels of an accepted pool are, and that a text is a slice of the lent pool. The functions do nothing: their contracts
// are the claims, so that the check's report names them.
#![tactic(auto)]

ghost use Rattle.query_claims.specs.Texts.{AcceptedQueries};
ghost use Rattle.query_claims.specs.Lent.{TextsLent};

pub fn queries_are_parts()
    ensures { AcceptedQueries }
{}

// Tied to the contract of `device_pool::text`: one that says less, or that asks something of its caller, breaks the claim.
pub fn texts_are_lent()
    ensures { TextsLent }
{}
