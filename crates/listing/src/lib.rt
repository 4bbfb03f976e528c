// The lister's text: the free-order plan of a table, or a refusal, as document 01 has it printed, at the front of a lent buffer.
// specs/Listing.antt has the text for any table bytes; its fixed words stand here and in crate lines as byte strings.
#![tactic(auto)]

ghost use Rattle.std.specs.Prelude.{◌≡◌, ◌++◌, ◌+◌, ◌≤◌, length, get_or};
ghost use Rattle.model.specs.Laying.{most_busy};
ghost use Rattle.model.specs.Positions.{no_job};
ghost use Rattle.records.specs.Limits.{most_jobs};
ghost use Rattle.draft.specs.declared.Draft.{Draft};
ghost use Rattle.octets.specs.Decimals.{decimal};
ghost use Rattle.octets.specs.Writing.{Wrote};
ghost use Rattle.lines.specs.Lines.{refused_room};
ghost use Rattle.listing.specs.Found.{placed, step_lines, draft_text, made_text};
ghost use Rattle.listing.specs.Listing.{choice_word, job_line, Lists};

use draft::Draft;
use model::{Job, Laid};
use plan::Plan;
use records::refusal::Refusal;
use table::Table;

// A job's choice and its start.
fn put_start(out: &mut [u8], at: usize, away: bool, start: usize) -> usize
    requires { at + length (choice_word away ++ decimal start) ≤ length out.old }
    ensures { Wrote out.old at (choice_word away ++ decimal start) out.new result }
{
    if away {
        lines::put_field(out, at, b" away ", start)
    } else {
        lines::put_field(out, at, b" here ", start)
    }
}

// The line of a job whose span starts at `start`.
fn put_job_line(out: &mut [u8], at: usize, job: Job, away: bool, start: usize) -> usize
    requires { (start ≤ most_busy) × (at + length (job_line (placed job away start)) ≤ length out.old) }
    ensures { Wrote out.old at (job_line (placed job away start)) out.new result }
{
    let end = start + model::span_of(job, away) as usize;
    let finish = end + model::wait_of(job, away) as usize;
    let a = octets::put_number(out, at, job.id as usize);
    let b = put_start(out, a, away, start);
    lines::put_pair(out, b, b" ", end, b" ", finish)
}

// The i-th job of the table, and one of no length behind the last.
fn job_at(jobs: &[Job], i: usize) -> Job
    ensures { result ≡ get_or jobs.now i no_job }
{
    jobs.get(i).copied().unwrap_or(Job::NONE)
}

// A line for each step of the plan, back to back from tick 0.
fn put_lines(out: &mut [u8], from: usize, plan: &Plan, t: &Table) -> usize
    requires { (plan.now.count ≤ most_jobs) × (t.now.count ≤ most_jobs) × (from + length (step_lines t.now plan.now) ≤ length out.old) }
    ensures { Wrote out.old from (step_lines t.now plan.now) out.new result }
{
    let jobs = &t.jobs[..t.count];
    let index = lookup::index_of(jobs);
    let mut at = from;
    let mut start = 0;
    for &step in &plan.steps[..plan.count] {
        let job = job_at(jobs, index[step.id as usize] as usize);
        at = put_job_line(out, at, job, step.away, start);
        start += model::span_of(job, step.away) as usize;
    }
    at
}

// The first line, a line for each step, the last line.
fn put_plan(out: &mut [u8], t: &Table, draft: &Draft) -> usize
    requires { (draft.now.plan.count ≤ most_jobs) × (t.now.count ≤ most_jobs) × (length (draft_text t.now draft.now) ≤ length out.old) }
    ensures { Wrote out.old 0 (draft_text t.now draft.now) out.new result }
{
    let Laid { busy, last } = draft.laid;
    let a = lines::put_pair(out, 0, b"frame ", t.deadline as usize, b" jobs ", t.count);
    let b = put_lines(out, a, &draft.plan, t);
    lines::put_pair(out, b, b"busy ", busy as usize, b" last ", last as usize)
}

// The plan that was found, or NONE.
fn put_made(out: &mut [u8], t: &Table, made: Option<Draft>) -> usize
    requires counted { (d : Draft) → made ≡ Some d → d.plan.count ≤ most_jobs }
    requires made_fits { (t.now.count ≤ most_jobs) × (length (made_text t.now made) ≤ length out.old) }
    requires refused_fits { refused_room ≤ length out.old }
    ensures { Wrote out.old 0 (made_text t.now made) out.new result }
{
    match made {
        Some(draft) => put_plan(out, t, &draft),
        None => lines::put_refused(out, 0, Refusal::None),
    }
}

// The text for any table bytes, at the front of the buffer, and its length; the rest of the buffer is left. A buffer of 1,024 bytes has room for
// every text; in a shorter one nothing is written.
pub fn list_plan(table: &[u8], out: &mut [u8]) -> Option<usize>
    ensures { Lists table.now out.old result out.new }
{
    if out.len() < 1024 {
        return None;
    }
    Some(match table::read_table(table) {
        Err(f) => lines::put_refused(out, 0, f),
        Ok(t) => put_made(out, &t, free::free_plan(&t)),
    })
}
