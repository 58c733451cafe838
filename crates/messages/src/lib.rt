// Process data messages: eight bytes read and written.
#![tactic(auto)]

ghost use Rattle.std.specs.Prelude.{◌≡◌, ℕ, ◌+◌, ◌*◌, ◌/◌, ◌%◌, ◌≤◌, ◌<◌, length, get_or, [], ◌∷◌, cond, ltb, Ok, Err};
ghost use Rattle.messages.specs.declared.Unwritten.TheVariants.{TooLarge};
ghost use Rattle.std.proofs.lemmas.List.Edits.{sets};
ghost use Rattle.messages.specs.Layout.{is_value_carrier, head_bytes, acknowledge};
ghost use Rattle.messages.specs.Reading.{unread_number, fields_of, read_of};
ghost use Rattle.messages.specs.Writing.{unwritten_number, number_of, value_refusal, value_after, acknowledge_refusal, acknowledge_after};
ghost use Rattle.messages.specs.Back.{ReadsBack};
ghost use Rattle.messages.specs.Worked.{WorkedMessages};

// A message that is read. A command is a number, as C gets it.
#[derive(Clone, Copy)]
pub enum Message {
    Value {
        command: u8,
        element: u16,
        ddi: u16,
        value: i32,
    },
    Acknowledge {
        element: u16,
        ddi: u16,
        errors: u8,
        answered: u8,
    },
}

// Why bytes are no message.
#[derive(Clone, Copy, Debug, PartialEq, Eq)]
pub enum Unread {
    NotEight,
    NoCommand,
}

// Document 01's number for each.
impl From<Unread> for u32 {
    ghost from_gives = { λ refusal number. number ≡ unread_number refusal };

    fn from(refusal: Unread) -> u32 {
        match refusal {
            Unread::NotEight => 30,
            Unread::NoCommand => 31,
        }
    }
}

// Why a message is not written.
#[derive(Clone, Copy, Debug, PartialEq, Eq)]
pub enum Unwritten {
    NoCommand,
    TooLarge,
    NoRoom,
}

// Document 01's number for each.
impl From<Unwritten> for u32 {
    ghost from_gives = { λ refusal number. number ≡ unwritten_number refusal };

    fn from(refusal: Unwritten) -> u32 {
        match refusal {
            Unwritten::NoCommand => 31,
            Unwritten::TooLarge => 32,
            Unwritten::NoRoom => 33,
        }
    }
}

// Whether a command carries a value: 2 to 8 and A. A command is a number, as C passes it and as the standard counts it.
pub fn carries_value(command: u32) -> bool
    ensures { result ≡ is_value_carrier command }
{
    matches!(command, 2..=8 | 10)
}

// Reads a message.
pub fn read(bytes: &[u8]) -> Result<Message, Unread>
    ensures { fields_of result ≡ read_of bytes.now }
{
    if bytes.len() != 8 {
        return Err(Unread::NotEight);
    }
    let command = bytes[0] % 16;
    let element = (bytes[0] / 16) as u16 + 16 * bytes[1] as u16;
    let ddi = wire::read::<u16>(bytes, 2);
    if carries_value(command as u32) {
        return Ok(Message::Value {
            command,
            element,
            ddi,
            value: wire::read::<i32>(bytes, 4),
        });
    }
    if command == 13 {
        return Ok(Message::Acknowledge {
            element,
            ddi,
            errors: bytes[4],
            answered: bytes[5] % 16,
        });
    }
    Err(Unread::NoCommand)
}

// Writes the first four bytes: command, element number and DDI.
fn put_head(to: &mut [u8], command: u8, element: u16, ddi: u16)
    requires { (8 ≤ length to.old) × (command < 16) × (element ≤ 4095) }
    ensures { to.new ≡ sets to.old 0 (head_bytes command element ddi) }
{
    to[0] = (element % 16 * 16) as u8 + command;
    to[1] = (element / 16) as u8;
    wire::write(to, 2, ddi);
}

// A number that a field of a message holds if it is at most the field's highest. It is passed in 32 bits, so that a number out of
// range is not truncated to a valid one.
fn held(number: u32, most: u16) -> Result<u16, Unwritten>
    ensures { result ≡ cond (ltb most number) (Err TooLarge) (Ok number) }
{
    if u32::from(most) < number {
        return Err(Unwritten::TooLarge);
    }
    Ok(number as u16)
}

// Whether eight bytes are lent.
fn check_room(length: usize) -> Result<(), Unwritten>
    ensures { number_of result ≡ cond (ltb length 8) 33 0 }
{
    if length < 8 {
        return Err(Unwritten::NoRoom);
    }
    Ok(())
}

// Writes a value message.
#[tactic(auto, using(std::proofs::lemmas::Bool::Decides::nat_tests), unfolding(crate::specs::Writing::value_refusal, crate::specs::Writing::value_after))]
pub fn write_value(
    to: &mut [u8],
    command: u32,
    element: u32,
    ddi: u16,
    value: i32,
) -> Result<(), Unwritten>
    ensures { (number_of result ≡ value_refusal command element (length to.old)) × (to.new ≡ value_after to.old command element ddi value) }
{
    if !carries_value(command) {
        return Err(Unwritten::NoCommand);
    }
    let element = held(element, 4095)?;
    check_room(to.len())?;
    put_head(to, command as u8, element, ddi);
    wire::write(to, 4, value);
    Ok(())
}

// Writes the last four bytes of an acknowledge.
fn put_answer(to: &mut [u8], errors: u8, answered: u8)
    requires { (8 ≤ length to.old) × (answered ≤ 15) }
    ensures { to.new ≡ sets to.old 4 (errors ∷ (240 + answered) ∷ 255 ∷ 255 ∷ []) }
{
    to[4] = errors;
    to[5] = 240 + answered;
    to[6] = 255;
    to[7] = 255;
}

// Writes an acknowledge.
#[tactic(auto, using(std::proofs::lemmas::Bool::Decides::nat_tests), unfolding(crate::specs::Writing::acknowledge_refusal, crate::specs::Writing::acknowledge_after))]
pub fn write_acknowledge(
    to: &mut [u8],
    element: u32,
    ddi: u16,
    errors: u8,
    answered: u32,
) -> Result<(), Unwritten>
    ensures { (number_of result ≡ acknowledge_refusal element answered (length to.old)) × (to.new ≡ acknowledge_after to.old element ddi errors answered) }
{
    let element = held(element, 4095)?;
    let answered = held(answered, 15)? as u8;
    check_room(to.len())?;
    put_head(to, 13, element, ddi);
    put_answer(to, errors, answered);
    Ok(())
}

// Document 01's number for what writing answers, 0 if the message is written. It is no `From`: neither a `Result` nor a `u32` is a type of
// this crate.
pub fn number_of(written: Result<(), Unwritten>) -> u32
    ensures { result ≡ number_of written }
{
    match written {
        Ok(()) => 0,
        Err(refusal) => u32::from(refusal),
    }
}

// What is written reads back the same. The function does nothing: its contract is the claim, so that the report names it.
pub fn messages_read_back()
    ensures { ReadsBack }
{}

// Two worked messages, which fix the order of the bytes. This function does nothing either.
pub fn worked_messages_hold()
    ensures { WorkedMessages }
{}
