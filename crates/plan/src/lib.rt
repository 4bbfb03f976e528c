// A plan: its reader, which takes any bytes and reads them where they stand, and its writer at the front of a lent area.
#![tactic(auto)]

ghost use Rattle.std.specs.Prelude.{◌≡◌, [], ◌++◌, ◌+◌, ◌<◌, ◌≤◌, length, drop};
ghost use Rattle.records.specs.Limits.{most_jobs, longest_plan};
ghost use Rattle.octets.specs.Writing.{Wrote};
ghost use Rattle.plan.specs.Plans.{listed_at, record_at, read_plan, plan_read, step_bytes, plan_bytes};
ghost use Rattle.plan.specs.Plans.{step_at, plan_of, with_step, steps_of};

use records::kind::{PLAN_END, RUN_HERE, SEND_AWAY, StepKind};
use records::record;
use records::record::Record;
use records::refusal::{Place, Refusal};
use table::Table;

// One line of a plan: the job with this id, sent away or run here.
#[derive(Clone, Copy)]
pub struct Step {
    pub id: u8,
    pub away: bool,
}

impl Step {
    // What stands in an entry that no step has.
    pub const NONE: Step = Step { id: 0, away: false };
}

// A plan that is being made: the first `count` steps stand, in an array, since memory is fixed.
#[derive(Clone, Copy)]
pub struct Plan {
    pub count: usize,
    pub steps: [Step; Table::MOST_JOBS],
}

impl Plan {
    // The plan with no steps.
    pub fn empty() -> Plan
        ensures { result ≡ plan_of [] }
    {
        let steps = [Step::NONE; Table::MOST_JOBS];
        Plan { count: 0, steps }
    }

    // One more step at the plan's end.
    pub fn push(&mut self, step: Step)
        requires { self.old.count < most_jobs }
        ensures { self.new ≡ with_step self.old step }
    {
        self.steps[self.count] = step;
        self.count += 1;
    }
}

// A step whose record is whole, where `count` steps stand before it.
fn listed_at(
    s: &[u8],
    p: Place,
    next: Place,
    count: usize,
    away: bool,
) -> Result<Record<Step>, Refusal>
    requires { p.at + 1 < length s.now }
    ensures { result ≡ listed_at s.now p next count away }
{
    if Table::MOST_JOBS <= count {
        return Err(Refusal::Many(p));
    }
    let id = s[p.at + 1];
    Ok(Record::Listed(Step { id, away }, next))
}

// The record at a place, where `count` steps stand before it.
fn record_at(s: &[u8], p: Place, count: usize) -> Result<Record<Step>, Refusal>
    ensures { result ≡ record_at s.now p count }
{
    let step = record::opened::<StepKind>(s, p)?;
    match step.kind {
        StepKind::HereStep => listed_at(s, p, step.next, count, false),
        StepKind::AwayStep => listed_at(s, p, step.next, count, true),
        StepKind::EndStep => Ok(Record::Last(step.next)),
    }
}

// How many steps a plan has, or what is refused of it; `seen` tells the ids that stand before. The loop is not one with the table's: here the answer
// is taken apart as document 01 has it for what comes from anybody's program, and there the jobs are kept.
pub fn read_plan(s: &[u8]) -> Result<usize, Refusal>
    ensures { result ≡ plan_read (read_plan s.now) }
{
    let mut seen = [false; 256];
    let mut count = 0;
    let mut p = Place::start();
    loop {
        let answer = record_at(s, p, count);
        let Ok(record) = answer else {
            return answer.and(Ok(count));
        };
        match record {
            Record::Listed(step, next) => {
                let id = step.id as usize;
                if seen[id] {
                    return Err(Refusal::Twice(p));
                }
                seen[id] = true;
                count += 1;
                p = next;
            }
            Record::Last(next) => return record::ended_at(s, next).and(Ok(count)),
        }
    }
}

// The k-th step of a plan, read where it stands; as in the definition, id 0 kept here where no such step stands.
pub fn step_at(s: &[u8], k: usize) -> Step
    ensures { result ≡ step_at s.now k }
{
    if s.len() / 2 <= k {
        return Step::NONE;
    }
    Step {
        id: s[2 * k + 1],
        away: s[2 * k] == SEND_AWAY,
    }
}

// Writes the record of a step at a place of the area, and returns the place after it.
fn put_step(area: &mut [u8], at: usize, step: Step) -> usize
    requires { at + 2 ≤ length area.old }
    ensures { Wrote area.old at (step_bytes step) area.new result }
{
    let kind = if step.away { SEND_AWAY } else { RUN_HERE };
    let record = [kind, step.id];
    octets::put(area, at, &record)
}

// Writes the plan at the front of the area, leaves the rest, and returns how many bytes it wrote.
pub fn write_plan(area: &mut [u8], plan: &Plan) -> usize
    requires { (plan.now.count ≤ most_jobs) × (longest_plan ≤ length area.old) }
    ensures { (result ≡ length (plan_bytes (steps_of plan.now)))
        × (area.new ≡ plan_bytes (steps_of plan.now) ++ drop (length (plan_bytes (steps_of plan.now))) area.old) }
{
    let mut at = 0;
    for &step in &plan.steps[..plan.count] {
        at = put_step(area, at, step);
    }
    let end = [PLAN_END];
    octets::put(area, at, &end)
}
