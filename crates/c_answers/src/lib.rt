// Answers as a C caller gets them: the number is the result; a place, a count or fields are written to lent numbers or to a struct. A
// function that writes to lent numbers is no `From`.
#![tactic(auto)]

ghost use Rattle.std.specs.Prelude.{◌≡◌};
ghost use Rattle.pool.specs.Answer.{answer_of};
ghost use Rattle.checker.specs.Checking.{verdict_of};
ghost use Rattle.session.specs.Calls.{step_of};
ghost use Rattle.messages.specs.Reading.{fields_of};
ghost use Rattle.c_answers.specs.Numbers.{Says};
ghost use Rattle.c_answers.specs.Exchange.{fields_in};
ghost use Rattle.c_answers.specs.Steps.{step_in};

use checker::Checked;
use messages::{Message, Unread};
use records::Span;
use session::{Session, Step};

// The count of records, or the place of a refusal.
pub fn give_outcome(outcome: Result<usize, pool::Refusal>, value: &mut usize) -> u32
    ensures { Says (answer_of outcome) result value.new }
{
    match outcome {
        Ok(count) => {
            *value = count;
            0
        }
        Err(refusal) => {
            *value = refusal.place();
            u32::from(refusal)
        }
    }
}

// The count of faults, or the place of a refusal.
pub fn give_verdict(verdict: Result<Checked, pool::Refusal>, value: &mut usize) -> u32
    ensures { Says (verdict_of verdict) result value.new }
{
    give_outcome(verdict.map(|checked| checked.faults), value)
}

// The number and the place of a text. It takes any number and any place, one by one and in no Result, as `queries::text_at` does.
pub fn give_place(told: u32, span: Span, from: &mut usize, to: &mut usize) -> u32
    ensures { (result ≡ told) × (from.new ≡ span.from) × (to.new ≡ span.to) }
{
    *from = span.from;
    *to = span.to;
    told
}

// A message that is read: number 0 and its fields, where an acknowledge has command 13, or the number of a refusal with zeros. In this
// order the fields take 16 bytes, which x86-64 and aarch64 both return in two registers.
#[repr(C)]
#[derive(Clone, Copy, Default)]
pub struct MessageFields {
    pub number: u32,
    pub value: i32,
    pub element: u16,
    pub ddi: u16,
    pub command: u8,
    pub errors: u8,
    pub answered: u8,
}

impl From<Result<Message, Unread>> for MessageFields {
    ghost from_gives = { λ message fields. fields_in fields ≡ fields_of message };

    fn from(message: Result<Message, Unread>) -> MessageFields {
        match message {
            Ok(
                Message::Value {
                    command,
                    element,
                    ddi,
                    value,
                },
            ) => MessageFields {
                number: 0,
                value,
                element,
                ddi,
                command,
                errors: 0,
                answered: 0,
            },
            Ok(
                Message::Acknowledge {
                    element,
                    ddi,
                    errors,
                    answered,
                },
            ) => MessageFields {
                number: 0,
                value: 0,
                element,
                ddi,
                command: 13,
                errors,
                answered,
            },
            Err(refusal) => MessageFields {
                number: refusal.into(),
                ..MessageFields::default()
            },
        }
    }
}

// The number and the error byte of a command, one by one, too.
pub fn give_judgement(number: u32, byte: u8, error: &mut u8) -> u32
    ensures { (result ≡ number) × (error.new ≡ byte) }
{
    *error = byte;
    number
}

// The session value after a call and the call's answer: number 0, or a refusal's number with its place or the first fault.
#[repr(C)]
#[derive(Clone, Copy)]
pub struct StepFields {
    pub session: Session,
    pub place: usize,
    pub number: u32,
    pub record: u16,
    pub rule: u16,
    pub item: u16,
    pub id: u16,
    pub parent: u16,
}

impl From<Step> for StepFields {
    ghost from_gives = { λ step fields. step_in fields ≡ step_of step };

    fn from(step: Step) -> StepFields {
        let answer = session::Numbers::from(step.answer);
        let fault = answer.fault;
        StepFields {
            session: step.session,
            place: answer.place,
            number: answer.number,
            record: fault.record,
            rule: fault.rule,
            item: fault.item,
            id: fault.id,
            parent: fault.parent,
        }
    }
}
