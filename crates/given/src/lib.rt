// The given-order planner on a table that is read: document 01's Algorithm 1, one pass over the jobs in table order.
#![tactic(auto)]

ghost use Rattle.std.specs.Prelude.{◌≡◌, ◌≤◌, take};
ghost use Rattle.model.specs.GivenOrder.{goes, decide, given};
ghost use Rattle.model.specs.Laying.{most_busy};
ghost use Rattle.records.specs.Limits.{most_jobs};
ghost use Rattle.draft.specs.Drafts.{drafted_of};
ghost use Rattle.given.specs.Given.{decision_of};

use draft::Draft;
use model::{Job, Sending};
use table::Table;

// At time t a job is sent away if it is an either job, S < C and t + S + I <= d.
fn is_sent(d: u32, t: u32, job: Job) -> bool
    requires { t ≤ most_busy }
    ensures { result ≡ goes d t job }
{
    match job.sending {
        Sending::HereOnly => false,
        Sending::Either { setup, back } => {
            setup < job.local && t + u32::from(setup) + u32::from(back) <= d
        }
    }
}

// Whether the next job is sent away; else it is kept here if t + C <= d; else it cannot be on time.
fn decided(d: u32, t: u32, job: Job) -> Option<bool>
    requires { t ≤ most_busy }
    ensures { result ≡ decision_of (decide d t job) }
{
    if is_sent(d, t, job) {
        return Some(true);
    }
    if t + u32::from(job.local) <= d {
        Some(false)
    } else {
        None
    }
}

// The plan in table order, if there is one.
pub fn given_plan(t: &Table) -> Option<Draft>
    requires { t.now.count ≤ most_jobs }
    ensures { result ≡ drafted_of (given t.now.deadline 0 (take t.now.count t.now.jobs)) }
{
    let d = u32::from(t.deadline);
    let mut draft = Draft::empty();
    for &job in &t.jobs[..t.count] {
        let away = decided(d, draft.laid.busy, job)?;
        draft.push(job, away);
    }
    Some(draft)
}
