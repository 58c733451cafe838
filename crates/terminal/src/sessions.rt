// A client's session for C: the session value is the same as in Rattle, and the step is returned as numbers.
ghost use Rattle.std.specs.Prelude.{◌≡◌, length};
ghost use Rattle.session.specs.Calls.{new_session, offer_of, transfer_of, staging_after, deactivate_of, delete_of, lost_of};
ghost use Rattle.activation.specs.Activating.{activate_of, kept_after, records_activated};
ghost use Rattle.c_answers.specs.Steps.{step_in};

use c_answers::StepFields;
use session::Session;
use working_table::Record;

// A new session: nothing offered, kept or active.
pub fn lachsbrille_session_new() -> Session
    ensures { result ≡ new_session }
{
    session::new()
}

// Announces the size of a pool. Of the areas only the lengths matter.
pub fn lachsbrille_session_offer(s: Session, size: usize, staging: &[u8], kept: &[u8]) -> StepFields
    ensures { step_in result ≡ offer_of s size (length staging.now) (length kept.now) }
{
    session::offer(s, size, staging, kept).into()
}

// Copies a piece of the pool into staging.
pub fn lachsbrille_session_transfer(s: Session, piece: &[u8], staging: &mut [u8]) -> StepFields
    ensures { (step_in result ≡ transfer_of s piece.now (length staging.old)) × (staging.new ≡ staging_after s piece.now staging.old) }
{
    session::transfer(s, piece, staging).into()
}

// Activates the pool that is offered, or else the one that is kept.
pub fn lachsbrille_session_activate(
    s: Session,
    staging: &[u8],
    kept: &mut [u8],
    table: &mut [Record],
) -> StepFields
    ensures { (step_in result ≡ activate_of s staging.now (length kept.old) (length table.old)) × (kept.new ≡ kept_after s staging.now kept.old (length table.old)) × (table.new ≡ records_activated s staging.now (length kept.old) table.old) }
{
    activation::activate(s, staging, kept, table).into()
}

// Deactivates the pool.
pub fn lachsbrille_session_deactivate(s: Session) -> StepFields
    ensures { step_in result ≡ deactivate_of s }
{
    session::deactivate(s).into()
}

// Forgets the pool that is kept, and an offer.
pub fn lachsbrille_session_delete(s: Session) -> StepFields
    ensures { step_in result ≡ delete_of s }
{
    session::delete(s).into()
}

// The connection is lost: no pool is active, an offer is forgotten, and a kept pool stays kept.
pub fn lachsbrille_session_lost(s: Session) -> StepFields
    ensures { step_in result ≡ lost_of s }
{
    session::lost(s).into()
}
