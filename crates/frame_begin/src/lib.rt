// Begin: a frame opens with a table and a plan that pass the check, under a new number.
#![tactic(auto)]

ghost use Rattle.std.specs.Prelude.{◌≡◌, ◌≤◌, length};
ghost use Rattle.records.specs.Limits.{most_jobs};
ghost use Rattle.table.specs.Tables.{job_table};
ghost use Rattle.plan.specs.Plans.{read_plan};
ghost use Rattle.frame_record.specs.Answers.{answered};
ghost use Rattle.frame_begin.specs.Begin.{steps_in, away_in, entries_of, positions_of, begun, may_open, begin_step};

use frame_record::{Called, Entry, Frame, Phase};
use model::Job;
use records::refusal::Refusal;
use table::Table;

// Whether a plan of `count` steps sends the job with an id away: a search, since a plan has no index by ids, and is read where it stands.
fn away_in(plan: &[u8], count: usize, id: u8) -> bool
    requires { count ≤ length (steps_in (read_plan plan.now)) }
    ensures { result ≡ away_in (steps_in (read_plan plan.now)) count id }
{
    for k in 0..count {
        let step = plan::step_at(plan, k);
        if step.id == id {
            return step.away;
        }
    }
    false
}

// The entries of a table's jobs, none of which has a value. Jobs and plan stay two parameters: they have passed the check, and go no further together.
fn entries_of(jobs: &[Job], plan: &[u8]) -> [Entry; Table::MOST_JOBS]
    requires { (length jobs.now ≤ most_jobs) × (length jobs.now ≤ length (steps_in (read_plan plan.now))) }
    ensures { result ≡ entries_of jobs.now (steps_in (read_plan plan.now)) (length jobs.now) }
{
    let mut entries = [Entry::NONE; Table::MOST_JOBS];
    for (i, job) in jobs.iter().enumerate() {
        entries[i] = Entry {
            id: job.id,
            away: away_in(plan, jobs.len(), job.id),
            ..Entry::NONE
        };
    }
    entries
}

// Where the jobs of a plan, in plan order, stand in the table.
fn positions_of(jobs: &[Job], plan: &[u8]) -> [usize; Table::MOST_JOBS]
    requires { (length jobs.now ≤ most_jobs) × (length jobs.now ≤ length (steps_in (read_plan plan.now))) }
    ensures { result ≡ positions_of jobs.now (steps_in (read_plan plan.now)) (length jobs.now) }
{
    let index = lookup::index_of(jobs);
    let mut order = [0; Table::MOST_JOBS];
    for k in 0..jobs.len() {
        let step = plan::step_at(plan, k);
        order[k] = index[step.id as usize] as usize;
    }
    order
}

// The record of a frame that opens, once the plan has passed the check.
#[tactic(auto, unfolding(crate::specs::Begin::begun))]
fn begun(t: Table, plan: &[u8], number: u32) -> Frame
    requires { (t.count ≤ most_jobs) × (t.count ≤ length (steps_in (read_plan plan.now))) }
    ensures { result ≡ begun number (job_table t) (steps_in (read_plan plan.now)) }
{
    let jobs = &t.jobs[..t.count];
    Frame {
        phase: Phase::Open,
        number,
        clock: 0,
        deadline: t.deadline,
        count: jobs.len(),
        next: 0,
        order: positions_of(jobs, plan),
        entries: entries_of(jobs, plan),
    }
}

// A frame's number is above the last one begun.
fn may_open(f: Frame, number: u32) -> bool
    ensures { result ≡ may_open f number }
{
    f.phase == Phase::Idle || f.number < number
}

// The record once a frame has begun.
#[tactic(auto, using(table::proofs::Reading::read_refused, table::proofs::Reading::read_whole), unfolding(crate::specs::Begin::begin_step))]
fn opened(f: Frame, table: &[u8], plan: &[u8], number: u32) -> Result<Frame, Refusal>
    ensures { answered f result ≡ begin_step f table.now plan.now number }
{
    if !f.is_ready() {
        return Err(Refusal::Phase);
    }
    let t = table::read_table(table)?;
    judge::check_read(&t, plan)?;
    if !may_open(f, number) {
        return Err(Refusal::Number);
    }
    Ok(begun(t, plan, number))
}

// Opens a frame with a table and a plan that pass the check, under a new number: the time is 0, and there are no values.
pub fn begin(f: Frame, table: &[u8], plan: &[u8], number: u32) -> Called
    ensures { result ≡ begin_step f table.now plan.now number }
{
    f.answered(opened(f, table, plan, number))
}
