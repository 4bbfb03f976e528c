// The free-order planner on a table that is read: the best choice's away jobs in away order, then its here jobs in table order.
#![tactic(auto)]

ghost use Rattle.std.specs.Prelude.{◌≡◌, List, ◌++◌, ◌≤◌, length};
ghost use Rattle.model.specs.Lists.{filter};
ghost use Rattle.model.specs.Timetable.{Chosen, here};
ghost use Rattle.model.specs.FreeOrder.{is_away};
ghost use Rattle.model.specs.Positions.{choose, free};
ghost use Rattle.records.specs.Limits.{most_jobs};
ghost use Rattle.draft.specs.Drafts.{draft_of, drafted_of};
ghost use Rattle.table.specs.Tables.{job_table, Sound};
ghost use Rattle.choice.specs.Choices.{SoundJobs, Ready, OfItsJobs};
ghost use Rattle.free.specs.Parts.{in_away_order, HereRoom};

use choice::Prepared;
use draft::Draft;
use model::Job;
use table::Table;

// The jobs that are flagged away, in away order.
fn away_part(p: &Prepared, flags: &[bool; Table::MOST_JOBS]) -> Draft
    requires { Ready p.now }
    ensures { OfItsJobs p.now (λ js. SoundJobs js → result ≡ draft_of (filter is_away (in_away_order js flags.now))) }
{
    let mut draft = Draft::empty();
    for (position, job) in p.order.as_slice().iter().zip(p.away_jobs()) {
        if flags[*position] {
            draft.push(*job, true);
        }
    }
    draft
}

// Behind them the jobs that are not, in table order.
fn here_part(front: Draft, jobs: &[Job], flags: &[bool; Table::MOST_JOBS]) -> Draft
    requires { (length jobs.now ≤ most_jobs) × HereRoom front (choose jobs.now flags.now) }
    ensures { (cs : List Chosen) → HereRoom front (choose jobs.now flags.now) → front ≡ draft_of cs
        → result ≡ draft_of (cs ++ filter here (choose jobs.now flags.now)) }
{
    let mut draft = front;
    for (job, away) in jobs.iter().zip(flags) {
        if !away {
            draft.push(*job, false);
        }
    }
    draft
}

// The plan of the best choice, if some timetable meets the deadline.
pub fn free_plan(t: &Table) -> Option<Draft>
    requires { Sound t.now }
    ensures { result ≡ drafted_of (free most_jobs t.now.deadline (job_table t.now).jobs) }
{
    let p = choice::prepare(t);
    let mask = choice::best_choice(t.deadline, &p)?;
    let flags = choice::flags_of(&p, mask);
    let front = away_part(&p, &flags);
    Some(here_part(front, &t.jobs[..t.count], &flags))
}
