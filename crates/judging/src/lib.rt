// Judging a command to the device: one error byte, by an accepted pool.
#![tactic(auto)]

ghost use Rattle.std.specs.Prelude.{◌≡◌, true, cond, suc, ◌≤◌, ◌<◌, eqb, length};
ghost use Rattle.records.specs.Layout.{mark_code};
ghost use Rattle.views.specs.Fields.{element_of};
ghost use Rattle.pool.specs.Walk.{Reaches, Listed};
ghost use Rattle.naming.specs.Naming.{named, tag_of};
ghost use Rattle.naming.specs.Entries.{entries_in};
ghost use Rattle.queries.specs.Parts.{numbered};
ghost use Rattle.judging.specs.Judging.{element_for, object_for, properties_in, triggers_in, misses_setting, misses_trigger, misses_interval, error_of_object, error_of, judge_answer};
ghost use Rattle.judging.specs.Answer.{refusal_number, answer_of};
ghost use Rattle.judging.specs.One.{AcceptedNamesOne};
ghost use Rattle.judging.specs.Causes.{ErrorIsFirstCause};
ghost use Rattle.judging.specs.Parts.{judged_among, judged_count};

use naming::{NamedRecords, RecordList};
use records::Kind;
use working_table::Counted;

// Why a command is not judged.
#[derive(Clone, Copy)]
pub enum Refusal {
    // The element number is over 4,095.
    ElementTooLarge,
    // The pool cannot be read.
    Unread(pool::Refusal),
    // The pool has a fault.
    Faulty,
}

// Document 01's number for a refusal.
impl From<Refusal> for u32 {
    ghost from_gives = { λ refusal number. number ≡ refusal_number refusal };

    fn from(refusal: Refusal) -> u32 {
        match refusal {
            Refusal::ElementTooLarge => 32,
            Refusal::Unread(reason) => reason.into(),
            Refusal::Faulty => 24,
        }
    }
}

// A command to the device: its number, as C passes it, the device element and the DDI that it is for, and the value that it carries.
#[derive(Clone, Copy)]
struct Command {
    number: u32,
    element: u16,
    ddi: u16,
    value: i32,
}

// The property bits and trigger bits of an object.
#[derive(Clone, Copy)]
struct Bits {
    properties: u8,
    triggers: u8,
}

// Whether a record is the device element with an element number.
fn is_numbered(p: &[u8], at: u16, kind: Option<Kind>, element: u16) -> bool
    ensures { result ≡ eqb (cond (eqb (mark_code kind) 2) (suc (element_of p.now at).number) 0) (suc element) }
{
    match kind {
        Some(Kind::Det) => views::device_element(p, at).number == element,
        _ => false,
    }
}

// The first device element with an element number.
fn find_element(records: &RecordList, element: u16) -> Option<usize>
    ensures { numbered result ≡ element_for records.now.pool.now (entries_in records.now) element }
{
    let p = records.pool;
    let starts = records.starts;
    starts[..starts.len() - 1].iter().position(|at| is_numbered(
        p,
        *at,
        records::view::mark(p, *at),
        element,
    ))
}

// The process data or property that an ID names, if it has a DDI.
fn object_of(names: &NamedRecords, id: u16, ddi: u16) -> Option<usize>
    ensures { numbered result ≡ cond (eqb (tag_of names.now.records.pool.now (entries_in names.now.records) (named (entries_in names.now.records) id)) (suc ddi)) (named (entries_in names.now.records) id) 0 }
{
    let named = names.named_at(id);
    if reference_rules::tag_at(&names.records, named) != ddi as usize + 1 {
        return None;
    }
    Some(named as usize - 1)
}

// The process data or property with a DDI that the first such entry names, in the list of the device element that starts at a place.
fn find_object(names: &NamedRecords, at: u16, ddi: u16) -> Option<usize>
    ensures { numbered result ≡ object_for names.now.records.pool.now (entries_in names.now.records) at ddi }
{
    let p = names.records.pool;
    let element = views::device_element(p, at);
    (0..element.entries).find_map(|m| object_of(names, views::entry(p, at, m), ddi))
}

// The bits of an object, which is process data or a property. A property has none.
fn bits_of(p: &[u8], kind: Option<Kind>, at: u16) -> Bits
    ensures { (result.properties ≡ properties_in p.now (mark_code kind) at) × (result.triggers ≡ triggers_in p.now (mark_code kind) at) }
{
    match kind {
        Some(Kind::Dpd) => {
            let data = views::process_data(p, at);
            Bits {
                properties: data.properties,
                triggers: data.triggers,
            }
        }
        _ => Bits {
            properties: 0,
            triggers: 0,
        },
    }
}

// Whether a command sets a value and the object is not settable.
fn lacks_setting(properties: u8, command: u32) -> bool
    ensures { result ≡ misses_setting properties command }
{
    ((command == 3) | (command == 10)) & (properties / 2 % 2 == 0)
}

// Whether the trigger that a command needs is missing.
fn lacks_trigger(triggers: u8, command: u32) -> bool
    ensures { result ≡ misses_trigger triggers command }
{
    ((command == 4) & (triggers % 2 == 0))
        | (((command == 5) & (triggers / 2 % 2 == 0))
            | ((((command == 6) | (command == 7)) & (triggers / 4 % 2 == 0))
                | ((command == 8) & (triggers / 8 % 2 == 0))))
}

// Whether a command carries an interval that is negative.
fn lacks_interval(command: Command) -> bool
    ensures { result ≡ misses_interval command.value command.number }
{
    ((command.number == 4) | (command.number == 5)) & (command.value < 0)
}

// The error byte of a command whose object was found.
fn object_error(bits: Bits, command: Command) -> u8
    ensures { result ≡ error_of_object bits.properties bits.triggers command.number command.value }
{
    if lacks_setting(bits.properties, command.number) {
        return 0x10;
    }
    if lacks_trigger(bits.triggers, command.number) {
        return 0x08;
    }
    if lacks_interval(command) {
        return 0x20;
    }
    0
}

// The error byte of a command, by the records of a pool. It is the byte of the message that answers the command, and no enum: 0 there
// says that there is no error.
fn error_in(names: &NamedRecords, command: Command) -> u8
    ensures { result ≡ error_of names.now.records.pool.now (entries_in names.now.records) command.number command.element command.ddi command.value }
{
    if !messages::carries_value(command.number) {
        return 0x01;
    }
    let p = names.records.pool;
    let starts = names.records.starts;
    let Some(owner) = find_element(&names.records, command.element) else {
        return 0x02;
    };
    let Some(object) = find_object(names, starts[owner], command.ddi) else {
        return 0x04;
    };
    let at = starts[object];
    let bits = bits_of(p, records::view::mark(p, at), at);
    object_error(bits, command)
}

// Judges by the records of a pool, whose IDs have been listed. A pool with a fault is refused with 24. Only the count of faults matters,
// so their buffer may have room for none.
fn judge_named(names: &NamedRecords, faults: &mut [u16], command: Command) -> Result<u8, Refusal>
    ensures { answer_of result ≡ judged_among names.now.records.pool.now (entries_in names.now.records) command.number command.element command.ddi command.value }
{
    if pool_breaches::put_all(names, faults) != 0 {
        return Err(Refusal::Faulty);
    }
    Ok(error_in(names, command))
}

// Judges by the records of a pool. The check and the command use the same lists, so that the IDs are listed once.
fn judge_among(records: RecordList, command: Command) -> Result<u8, Refusal>
    ensures { answer_of result ≡ judged_among records.entry.pool.now (entries_in records.entry) command.number command.element command.ddi command.value }
{
    pool_breaches::with_names(records, &mut [], |names, faults| {
        judge_named(names, faults, command)
    })
}

// Judges a command for a table of `room` entries, with a list that is long enough for every record of the pool: the error byte, and how
// many entries of the table have to be filled. For an element number over 4,095 the pool is not looked at, and none has to be filled.
// The command comes as single numbers, as C passes them: an element number that is too large makes no `Command`. The list is a parameter of
// its own for the reason that `pool::list_for` gives.
pub fn judge_by(
    p: &[u8],
    room: usize,
    starts: &mut [u16],
    command: u32,
    element: u32,
    ddi: u16,
    value: i32,
) -> Counted<Result<u8, Refusal>>
    requires { Reaches starts.old p.now }
    ensures { (answer_of result.answer ≡ judge_answer p.now room command element ddi value) × (result.records ≡ judged_count p.now room element) × (element ≤ 4095 → Listed p.now room starts.new) }
{
    if 4095 < element {
        return Counted {
            records: 0,
            answer: Err(Refusal::ElementTooLarge),
        };
    }
    let command = Command {
        number: command,
        element: element as u16,
        ddi,
        value,
    };
    match pool::list_for(p, room, starts) {
        Ok(count) => {
            let records = RecordList {
                pool: p,
                starts: &starts[..=count],
            };
            Counted {
                records: count,
                answer: judge_among(records, command),
            }
        }
        Err(reason) => Counted {
            records: 0,
            answer: Err(Refusal::Unread(reason)),
        },
    }
}

// In an accepted pool an element number belongs to one device element, and a DDI to one entry of its list. The function does nothing:
// its contract is the claim, so that the report names it.
pub fn accepted_names_one()
    ensures { AcceptedNamesOne }
{}

// The error byte is the first whose cause applies, each cause in the words of the rules. This function does nothing either.
pub fn error_is_first_cause()
    ensures { ErrorIsFirstCause }
{}
