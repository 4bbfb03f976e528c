// The plan check: any table and any plan are judged by number, and a plan that passes is told its last finish and busy total.
// The plan's bytes are looked at where they stand: no copy of the plan and no decoded list of it is held.
#![tactic(auto)]

ghost use Rattle.std.specs.Prelude.{◌≡◌, not, ◌&&◌, Ok};
ghost use Rattle.model.specs.Timetable.{is_either};
ghost use Rattle.table.specs.Tables.{Sound, job_table};
ghost use Rattle.plan.specs.Plans.{read_plan, plan_read};
ghost use Rattle.judge.specs.Check.{after_plan, check_plan};

use model::{Job, Laid};
use records::refusal::Refusal;
use table::Table;

// What a plan that passes comes to, in the order in which it is answered: its run's last finish and busy total.
#[derive(Clone, Copy, Debug, PartialEq, Eq)]
pub struct Passed {
    pub last: u32,
    pub busy: u32,
}

// Whether a here-only job is sent away.
fn is_kept(job: Job, away: bool) -> bool
    ensures { result ≡ (away && not (is_either job)) }
{
    away && !job.may_go()
}

// Judges the steps of a plan that reads as `steps` of them, which only the reader can count. Ids differ in the table and in the plan, so once every step
// names a job of the table, a job is left exactly when the steps are fewer than the jobs.
fn check_steps(t: &Table, plan: &[u8], steps: usize) -> Result<Passed, Refusal>
    requires { Sound t.now × (plan_read (read_plan plan.now) ≡ Ok steps) }
    ensures { result ≡ after_plan (job_table t.now) (read_plan plan.now) }
{
    let index = lookup::index_of(&t.jobs[..t.count]);
    let mut laid = Laid { busy: 0, last: 0 };
    for k in 0..steps {
        let step = plan::step_at(plan, k);
        let i = index[step.id as usize] as usize;
        if t.count <= i {
            return Err(Refusal::Stranger);
        }
        let job = t.jobs[i];
        if is_kept(job, step.away) {
            return Err(Refusal::Kept);
        }
        laid = laid.with(job, step.away);
    }
    if steps < t.count {
        return Err(Refusal::Left);
    }
    let Laid { busy, last } = laid;
    if u32::from(t.deadline) < last {
        return Err(Refusal::Late);
    }
    Ok(Passed { last, busy })
}

// Checks a plan against a table that is read already.
pub fn check_read(t: &Table, plan: &[u8]) -> Result<Passed, Refusal>
    requires { Sound t.now }
    ensures { result ≡ after_plan (job_table t.now) (read_plan plan.now) }
{
    let steps = plan::read_plan(plan)?;
    check_steps(t, plan, steps)
}

// Checks a proposed plan's bytes against a table's.
pub fn check_plan(table: &[u8], plan: &[u8]) -> Result<Passed, Refusal>
    ensures { result ≡ check_plan table.now plan.now }
{
    check_read(&table::read_table(table)?, plan)
}
