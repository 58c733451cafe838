// Commands judged over a working table that is a lent slice of records: as in `device_pool`, the pool is read and checked once, with a
// list of its records' starts that `working_table` lends. The core (`judging`) answers by that list, and `working_table` fills the table
// by it.
#![tactic(auto)]

ghost use Rattle.std.specs.Prelude.{◌≡◌, length};
ghost use Rattle.judging.specs.Judging.{judge_answer};
ghost use Rattle.judging.specs.Answer.{answer_of};
ghost use Rattle.commands.specs.Tables.{records_judged};

use judging::Refusal;
use working_table::Record;

// Judges a command to the device. For an element number over 4,095 the pool is not looked at, and the table is left as it was.
pub fn judge(
    p: &[u8],
    table: &mut [Record],
    command: u32,
    element: u32,
    ddi: u16,
    value: i32,
) -> Result<u8, Refusal>
    ensures { (answer_of result ≡ judge_answer p.now (length table.old) command element ddi value) × (table.new ≡ records_judged p.now table.old element) }
{
    let room = table.len();
    working_table::fill(
        p,
        table,
        |starts| judging::judge_by(p, room, starts, command, element, ddi, value),
    )
}
