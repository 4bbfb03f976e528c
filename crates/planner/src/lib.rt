// The free-order plan, the given-order plan and the least deadline of a table that has been read, and one line above each the planner over bytes.
// Any table and any area get an answer by number; a plan is written at the front of the area, and a refusal leaves all of it.
#![tactic(auto)]

pub mod orders; // orders.rt: the two orders in which plans are made

ghost use Rattle.records.specs.Limits.{largest_time};
ghost use Rattle.table.specs.Tables.{Sound, job_table};
ghost use Rattle.choice.specs.Choices.{IsEarliest};
ghost use Rattle.planner.specs.Answers.{was_read, SoundRead, PlanAnswer, LeastRead};
ghost use Rattle.planner.specs.Answers.{FreeAnswer, GivenAnswer, LeastAnswer};

use orders::{FreeOrder, GivenOrder, Order};
use records::refusal::Refusal;
use table::Table;

// A plan of so many bytes is written, with its busy total and last finish.
#[derive(Clone, Copy, Debug, PartialEq, Eq)]
pub struct Written {
    pub bytes: usize,
    pub busy: u32,
    pub last: u32,
}

// The plan of what was read, in one of the two orders.
pub fn plan_read<O: Order>(
    read: Result<Table, Refusal>,
    area: &mut [u8],
) -> Result<Written, Refusal>
    requires { SoundRead read }
    ensures { PlanAnswer O.can_meet O.is_plan (was_read read) area.old result area.new }
{
    if area.len() < Table::LONGEST_PLAN {
        return Err(Refusal::Room);
    }
    let table = read?;
    let Some(draft) = O::plan(&table) else {
        return Err(Refusal::None);
    };
    let bytes = plan::write_plan(area, &draft.plan);
    Ok(Written {
        bytes,
        busy: draft.laid.busy,
        last: draft.laid.last,
    })
}

// The free-order plan of a table's bytes: the workable choice with the least busy total, if some timetable meets the deadline.
pub fn plan_free(table: &[u8], area: &mut [u8]) -> Result<Written, Refusal>
    ensures { FreeAnswer table.now area.old result area.new }
{
    plan_read::<FreeOrder>(table::read_table(table), area)
}

// The given-order plan of a table's bytes: Algorithm 1, the jobs in table order.
pub fn plan_given(table: &[u8], area: &mut [u8]) -> Result<Written, Refusal>
    ensures { GivenAnswer table.now area.old result area.new }
{
    plan_read::<GivenOrder>(table::read_table(table), area)
}

// The least deadline that some timetable of a table's jobs meets, if one does. A function of its own, so that what is prepared is made where it is
// asked: beside the `?` below, the compiler copies it, which takes 592 bytes of stack.
fn earliest_of(t: &Table) -> Option<u16>
    requires { Sound t.now }
    ensures { IsEarliest largest_time (job_table t.now).jobs result }
{
    choice::earliest(&choice::prepare(t))
}

// The least deadline that some timetable of what was read meets, whatever the table's own.
pub fn least_deadline_read(read: Result<Table, Refusal>) -> Result<u16, Refusal>
    requires { SoundRead read }
    ensures { LeastRead (was_read read) result }
{
    let table = read?;
    earliest_of(&table).ok_or(Refusal::None)
}

// The least deadline of a table's bytes.
pub fn least_deadline(table: &[u8]) -> Result<u16, Refusal>
    ensures { LeastAnswer table.now result }
{
    least_deadline_read(table::read_table(table))
}
