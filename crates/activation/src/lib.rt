// Activating: the pool that is offered is checked once all of it has arrived and, if it is accepted, kept; if nothing is offered, the
// pool that is already kept becomes active.
#![tactic(auto)]

ghost use Rattle.std.specs.Prelude.{◌≡◌, ◌≤◌, List, ℕ, length, take};
ghost use Rattle.pool.specs.Answer.{refusal_answer};
ghost use Rattle.pool.specs.Walk.{Reaches, Listed};
ghost use Rattle.checker.specs.Checking.{count_of};
ghost use Rattle.session.specs.Calls.{step_of};
ghost use Rattle.activation.specs.Activating.{kept_activated, decided, settled, kept_settled, activate_of, Sized, kept_after, records_activated};
ghost use Rattle.activation.specs.Rows.{records_for, ListsFor};

use session::{Fault, Refusal, Session, Step};
use working_table::{Counted, Record};

// Activates the pool that is already kept.
fn activate_kept(s: Session, room: usize) -> Step
    ensures { step_of result ≡ kept_activated s room }
{
    if s.kept == 0 {
        return session::refuse(s, Err(Refusal::NotOffered));
    }
    if room < s.kept as usize {
        return session::refuse(s, Err(Refusal::NoRoom));
    }
    Step {
        session: Session { active: 1, ..s },
        answer: Ok(()),
    }
}

// The answer to a pool that reading refuses: after refusal 7 the offer stands, after every other one it is over.
fn unread(s: Session, refusal: pool::Refusal) -> Step
    ensures { (p : List ℕ) → step_of result ≡ decided s p (refusal_answer refusal) }
{
    match refusal {
        pool::Refusal::TableShort(_) => session::refuse(s, Err(Refusal::Unread(refusal))),
        _ => session::refuse(session::end_stage(s), Err(Refusal::Unread(refusal))),
    }
}

// The answer of activating, and how many entries of the table have to be filled.
fn filling(step: Step, records: usize) -> Counted<Step>
    ensures { (result.answer ≡ step) × (result.records ≡ records) }
{
    Counted {
        records,
        answer: step,
    }
}

// Checks a pool of which all bytes have arrived, with a list that is long enough for every record, and keeps it if it is accepted. Here and
// below the list is a parameter of its own for the reason that `pool::list_for` gives.
fn settle(s: Session, p: &[u8], kept: &mut [u8], room: usize, starts: &mut [u16]) -> Counted<Step>
    requires { (length p.now ≤ 65535) × (length p.now ≤ length kept.old) × Reaches starts.old p.now }
    ensures { (step_of result.answer ≡ settled s p.now room) × (kept.new ≡ kept_settled p.now room kept.old) × (result.records ≡ count_of p.now room) × Listed p.now room starts.new }
{
    let mut first = [0u16; faults::WIDTH];
    let checked = match checker::check_by(p, room, starts, &mut first) {
        Ok(checked) => checked,
        Err(refusal) => return filling(unread(s, refusal), 0),
    };
    if checked.faults != 0 {
        let [record, rule, item, id, parent] = first;
        let fault = Fault {
            record,
            rule,
            item,
            id,
            parent,
        };
        let step = session::refuse(session::end_stage(s), Err(Refusal::Faulty(fault)));
        return filling(step, checked.records);
    }
    wire::copy(p, kept, 0);
    let step = Step {
        session: Session {
            kept: p.len() as u32,
            active: 1,
            ..session::new()
        },
        answer: Ok(()),
    };
    filling(step, checked.records)
}

// Activates the pool that is offered, or else the one that is kept, for a table of `room` entries. If a pool is checked and read, the
// list then begins with the starts of its records; if none is checked, no entry of the table has to be filled.
pub fn activate_in(
    s: Session,
    staging: &[u8],
    kept: &mut [u8],
    room: usize,
    starts: &mut [u16],
) -> Counted<Step>
    requires { Reaches starts.old (take s.announced staging.now) }
    ensures { (step_of result.answer ≡ activate_of s staging.now (length kept.old) room) × (kept.new ≡ kept_after s staging.now kept.old room) × (result.records ≡ records_for s staging.now (length kept.old) room) × ListsFor s staging.now (length kept.old) room starts.new }
{
    if session::is_impossible(s) {
        return filling(session::refuse(s, Err(Refusal::CannotArise)), 0);
    }
    if s.stage != 1 {
        return filling(activate_kept(s, kept.len()), 0);
    }
    if s.received < s.announced {
        return filling(session::refuse(s, Err(Refusal::Incomplete)), 0);
    }
    let announced = s.announced as usize;
    if (staging.len() < announced) | (kept.len() < announced) {
        return filling(session::refuse(s, Err(Refusal::NoRoom)), 0);
    }
    settle(s, &staging[..announced], kept, room, starts)
}

// Activates the pool that is offered, or else the one that is kept. If a pool is checked and read, the table is filled from the starts
// that the check has listed. Refusals 1 and 2 of reading are never given. The list is no `working_table::fill`'s: that promises nothing of
// what a core changes besides the list, and activating writes the kept area.
pub fn activate(s: Session, staging: &[u8], kept: &mut [u8], table: &mut [Record]) -> Step
    ensures { (step_of result ≡ activate_of s staging.now (length kept.old) (length table.old)) × (kept.new ≡ kept_after s staging.now kept.old (length table.old)) × (table.new ≡ records_activated s staging.now (length kept.old) table.old) × Sized (step_of result) }
{
    let mut starts = [0u16; pool::LONG_LIST];
    let activated = activate_in(s, staging, kept, table.len(), &mut starts);
    working_table::gather(staging, &starts, activated.records, table);
    activated.answer
}
