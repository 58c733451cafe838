// Worked cases, by computation. The functions do nothing: their contracts are the claims, so that the check's report names them.
#![tactic(auto)]

ghost use Rattle.cases.specs.Starred.{cases, Hold};
ghost use Rattle.cases.specs.Worked.{Worked};
ghost use Rattle.cases.specs.Objects.{Objects};
ghost use Rattle.cases.specs.Listings.{Listings};

pub fn starred_cases_hold()
    ensures { Hold cases }
{}

pub fn worked_session_holds()
    ensures { Worked }
{}

pub fn worked_objects_hold()
    ensures { Objects }
{}

pub fn worked_listings_hold()
    ensures { Listings }
{}
