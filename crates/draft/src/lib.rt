// A plan in the making: its steps so far, with their busy total and last finish. Both planners make theirs with it.
#![tactic(auto)]

ghost use Rattle.std.specs.Prelude.{◌≡◌, [], ◌≤◌, ◌<◌};
ghost use Rattle.model.specs.Laying.{chosen, most_busy};
ghost use Rattle.records.specs.Limits.{most_jobs};
ghost use Rattle.draft.specs.Drafts.{draft_of, with_chosen};

use model::{Job, Laid};
use plan::{Plan, Step};

#[derive(Clone, Copy)]
pub struct Draft {
    pub plan: Plan,
    pub laid: Laid,
}

impl Draft {
    // The draft with no steps.
    pub fn empty() -> Draft
        ensures { result ≡ draft_of [] }
    {
        let plan = Plan::empty();
        let laid = Laid { busy: 0, last: 0 };
        Draft { plan, laid }
    }

    // One job more at its end.
    pub fn push(&mut self, job: Job, away: bool)
        requires { (self.old.plan.count < most_jobs) × (self.old.laid.busy ≤ most_busy) }
        ensures { self.new ≡ with_chosen self.old (chosen job away) }
    {
        self.plan.push(Step { id: job.id, away });
        self.laid = self.laid.with(job, away);
    }
}
