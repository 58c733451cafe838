// One client's session: a pool is offered and transferred in pieces; `activation` activates it. The session is a value that each
// call takes and returns; the bytes are in two areas that the caller lends. A C caller holds the same value, so it is numbers alone.
#![tactic(auto)]

ghost use Rattle.std.specs.Prelude.{◌≡◌, length};
ghost use Rattle.session.specs.Answers.{reply, reply_of, reply_in};
ghost use Rattle.session.specs.Calls.{is_offered, new_session, ended, impossible, step_of, offer_of, transfer_of, staging_after, deactivate_of, delete_of, lost_of};

// Stage 0 is none and 1 offered; active is 0 or 1: numbers, since C holds the value. A value with any other number is impossible.
#[repr(C)]
#[derive(Clone, Copy)]
pub struct Session {
    pub announced: u32,
    pub received: u32,
    pub kept: u32,
    pub stage: u16,
    pub active: u16,
}

// A fault of a pool, with the object ID and the parent ID of its record.
#[derive(Clone, Copy)]
pub struct Fault {
    pub record: u16,
    pub rule: u16,
    pub item: u16,
    pub id: u16,
    pub parent: u16,
}

// Why a call is refused, in the order of the numbers: from reading the pool, of which activating gives 3 to 7 alone, then 20 to 27.
#[derive(Clone, Copy)]
pub enum Refusal {
    Unread(pool::Refusal),
    BadSize,
    NotOffered,
    BadPiece,
    Incomplete,
    Faulty(Fault),
    NotActive,
    NoRoom,
    CannotArise,
}

pub type Answer = Result<(), Refusal>;

// The session value after a call, and the call's answer.
#[derive(Clone, Copy)]
pub struct Step {
    pub session: Session,
    pub answer: Answer,
}

// An answer in numbers, as C is told it: 0, or a refusal's number with its place or the first fault. It is no Result, since C's structs
// have all of them whatever the answer is.
#[derive(Clone, Copy)]
pub struct Numbers {
    pub number: u32,
    pub place: usize,
    pub fault: Fault,
}

pub fn new() -> Session
    ensures { result ≡ new_session }
{
    Session {
        announced: 0,
        received: 0,
        kept: 0,
        stage: 0,
        active: 0,
    }
}

// Whether a session value is impossible: no list of calls leads to it.
pub fn is_impossible(s: Session) -> bool
    ensures { result ≡ impossible s }
{
    let offered = s.stage == 1;
    let unknown = (1 < s.stage) | (1 < s.active);
    let too_large = (65535 < s.announced) | (65535 < s.kept);
    let empty_offer = offered & (s.announced == 0);
    let too_much = s.announced < s.received;
    let nothing_active = (s.active == 1) & (s.kept == 0);
    let announced = !offered & (s.announced != 0);
    let received = !offered & (s.received != 0);
    unknown | too_large | empty_offer | too_much | nothing_active | announced | received
}

// A step that leaves the session as it was.
pub fn refuse(s: Session, answer: Answer) -> Step
    ensures { step_of result ≡ record { session = s; reply = reply_of answer } }
{
    Step { session: s, answer }
}

// Ends a stage: the offer and the bytes that have arrived are forgotten.
pub fn end_stage(s: Session) -> Session
    ensures { result ≡ ended s }
{
    Session {
        announced: 0,
        received: 0,
        stage: 0,
        ..s
    }
}

// Announces the size of a pool.
pub fn offer(s: Session, size: usize, staging: &[u8], kept: &[u8]) -> Step
    ensures { step_of result ≡ offer_of s size (length staging.now) (length kept.now) }
{
    if is_impossible(s) {
        return refuse(s, Err(Refusal::CannotArise));
    }
    if (size == 0) | (65535 < size) {
        return refuse(s, Err(Refusal::BadSize));
    }
    if (staging.len() < size) | (kept.len() < size) {
        return refuse(s, Err(Refusal::NoRoom));
    }
    Step {
        session: Session {
            announced: size as u32,
            received: 0,
            stage: 1,
            ..s
        },
        answer: Ok(()),
    }
}

// Takes a piece of the pool: it is copied into staging after the bytes already received.
pub fn transfer(s: Session, piece: &[u8], staging: &mut [u8]) -> Step
    ensures { (step_of result ≡ transfer_of s piece.now (length staging.old)) × (staging.new ≡ staging_after s piece.now staging.old) }
{
    if is_impossible(s) {
        return refuse(s, Err(Refusal::CannotArise));
    }
    if s.stage != 1 {
        return refuse(s, Err(Refusal::NotOffered));
    }
    let announced = s.announced as usize;
    let received = s.received as usize;
    if (piece.len() == 0) | (announced - received < piece.len()) {
        return refuse(s, Err(Refusal::BadPiece));
    }
    if staging.len() < announced {
        return refuse(s, Err(Refusal::NoRoom));
    }
    wire::copy(piece, &mut staging[received..], 0);
    Step {
        session: Session {
            received: (received + piece.len()) as u32,
            stage: 1,
            ..s
        },
        answer: Ok(()),
    }
}

pub fn deactivate(s: Session) -> Step
    ensures { step_of result ≡ deactivate_of s }
{
    if is_impossible(s) {
        return refuse(s, Err(Refusal::CannotArise));
    }
    if s.active == 0 {
        return refuse(s, Err(Refusal::NotActive));
    }
    Step {
        session: Session { active: 0, ..s },
        answer: Ok(()),
    }
}

// Forgets the pool that is kept, and an offer.
pub fn delete(s: Session) -> Step
    ensures { step_of result ≡ delete_of s }
{
    if is_impossible(s) {
        return refuse(s, Err(Refusal::CannotArise));
    }
    Step {
        session: new(),
        answer: Ok(()),
    }
}

// The connection is lost: an offer is forgotten and no pool is active, but a kept pool stays kept.
pub fn lost(s: Session) -> Step
    ensures { step_of result ≡ lost_of s }
{
    if is_impossible(s) {
        return refuse(s, Err(Refusal::CannotArise));
    }
    Step {
        session: Session {
            active: 0,
            ..end_stage(s)
        },
        answer: Ok(()),
    }
}

const NO_FAULT: Fault = Fault {
    record: 0,
    rule: 0,
    item: 0,
    id: 0,
    parent: 0,
};

// A number with its place, and no fault.
fn plain(number: u32, place: usize) -> Numbers
    ensures { reply_in result ≡ reply number place }
{
    Numbers {
        number,
        place,
        fault: NO_FAULT,
    }
}

impl From<Answer> for Numbers {
    ghost from_gives = { λ answer numbers. reply_in numbers ≡ reply_of answer };

    fn from(answer: Answer) -> Numbers {
        let Err(refusal) = answer else {
            return plain(0, 0);
        };
        match refusal {
            Refusal::Unread(r) => plain(u32::from(r), r.place()),
            Refusal::BadSize => plain(20, 0),
            Refusal::NotOffered => plain(21, 0),
            Refusal::BadPiece => plain(22, 0),
            Refusal::Incomplete => plain(23, 0),
            Refusal::Faulty(fault) => Numbers {
                number: 24,
                place: 0,
                fault,
            },
            Refusal::NotActive => plain(25, 0),
            Refusal::NoRoom => plain(26, 0),
            Refusal::CannotArise => plain(27, 0),
        }
    }
}
