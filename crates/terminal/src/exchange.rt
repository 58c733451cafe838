// Process data messages for C: read, written and judged.
ghost use Rattle.std.specs.Prelude.{◌≡◌, length};
ghost use Rattle.messages.specs.Reading.{read_of};
ghost use Rattle.messages.specs.Writing.{value_refusal, value_after, acknowledge_refusal, acknowledge_after};
ghost use Rattle.judging.specs.Judging.{judge_number, judge_error};
ghost use Rattle.commands.specs.Tables.{records_judged};
ghost use Rattle.c_answers.specs.Exchange.{fields_in};

use c_answers::MessageFields;
use working_table::Record;

// Reads a message.
pub fn lachsbrille_message_read(bytes: &[u8]) -> MessageFields
    ensures { fields_in result ≡ read_of bytes.now }
{
    messages::read(bytes).into()
}

// Writes a value message.
pub fn lachsbrille_message_write_value(
    to: &mut [u8],
    command: u32,
    element: u32,
    ddi: u16,
    value: i32,
) -> u32
    ensures { (result ≡ value_refusal command element (length to.old)) × (to.new ≡ value_after to.old command element ddi value) }
{
    messages::number_of(messages::write_value(to, command, element, ddi, value))
}

// Writes an acknowledge.
pub fn lachsbrille_message_write_acknowledge(
    to: &mut [u8],
    element: u32,
    ddi: u16,
    errors: u8,
    answered: u32,
) -> u32
    ensures { (result ≡ acknowledge_refusal element answered (length to.old)) × (to.new ≡ acknowledge_after to.old element ddi errors answered) }
{
    messages::number_of(messages::write_acknowledge(to, element, ddi, errors, answered))
}

// Judges a command to the device. The error byte is written to the lent byte, 0 if the call is refused.
pub fn lachsbrille_judge(
    p: &[u8],
    table: &mut [Record],
    command: u32,
    element: u32,
    ddi: u16,
    value: i32,
    error: &mut u8,
) -> u32
    ensures { (result ≡ judge_number p.now (length table.old) element) × (error.new ≡ judge_error p.now (length table.old) command element ddi value) × (table.new ≡ records_judged p.now table.old element) }
{
    match commands::judge(p, table, command, element, ddi, value) {
        Ok(byte) => c_answers::give_judgement(0, byte, error),
        Err(reason) => c_answers::give_judgement(reason.into(), 0, error),
    }
}
