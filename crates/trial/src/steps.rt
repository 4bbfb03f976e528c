// The steps of a choice: each job of a table, kept here or sent away, in table order or in another one. What an order of them comes to,
// and the search: the least last finish over all orders of the steps, laid back to back from tick 0.
ghost use Rattle.std.specs.Prelude.{◌≡◌, sum_by, take, IfSome, IsPermutation};
ghost use Rattle.trial.specs.Finish.{finish_from, IsLeastFinish};
ghost use Rattle.trial.specs.Orders.{arranged};

use crate::choices::Choice;
use crate::jobs::{Job, Jobs, MOST_JOBS};
use crate::row::Row;
use crate::rules::Rule;

// How many orders so many steps have.
const ORDERS: [usize; 7] = [1, 1, 2, 6, 24, 120, 720];

// A job's span on the panel: C here, S away; and the time from there to its return, where it is sent away.
#[derive(Clone, Copy, Default)]
pub struct Step {
    pub place: usize,
    pub id: u8,
    pub span: u16,
    pub back: Option<u16>,
}

pub type Steps = Row<Step, MOST_JOBS>;

// The step of the job at a place; nothing, if it is sent away and the rule does not send it.
fn step_of(job: &Job, place: usize, away: bool, rule: &impl Rule) -> Option<Step> {
    let (span, back) = if away {
        let times = rule.sends(job)?;
        (times.setup, Some(times.back))
    } else {
        (job.local, None)
    };
    Some(Step {
        place,
        id: job.id,
        span,
        back,
    })
}

// Puts the items into the order with a number: each place in turn gets one of the items that are left. The numbers below that of the orders
// give every order, since the remainder can be the place of any item that is left, and the quotient any number for the rest of them.
fn arrange<T>(items: &mut [T], number: usize)
    ensures permutation { IsPermutation items.old items.new }
    ensures order { items.new ≡ arranged items.old number }
{
    let mut rest = number;
    for k in 0..items.len() {
        let left = items.len() - k;
        items.swap(k, k + rest % left);
        rest /= left;
    }
}

impl Steps {
    // The steps of a choice in table order; nothing, if it sends a job away that the rule does not send.
    pub fn of(jobs: &Jobs, choice: Choice, rule: &impl Rule) -> Option<Steps>
        ensures { IfSome result (λ steps. steps.count ≡ jobs.now.count) }
    {
        let mut steps = Steps::none(Step::default());
        for (place, job) in jobs.as_slice().iter().enumerate() {
            steps.push(step_of(job, place, choice.has(place), rule)?);
        }
        Some(steps)
    }

    // The same steps, in the order in which a rule's plan lists them.
    pub fn listed(mut self, rule: &impl Rule) -> Steps
        ensures { result.count ≡ self.count }
    {
        let count = self.count;
        rule.sort(&mut self.list[..count]);
        self
    }

    // The busy total: the sum of the spans.
    pub fn busy(&self) -> u32
        ensures { result ≡ sum_by (λ (step : Step). step.span) (take self.now.count self.now.list) }
    {
        self.as_slice()
            .iter()
            .map(|step| u32::from(step.span))
            .sum()
    }

    // When the last of the steps is done, in the order in which they stand.
    pub fn last_finish(&self) -> u32
        ensures { result ≡ finish_from 0 (take self.now.count self.now.list) }
    {
        let mut end = 0;
        let mut last = 0;
        for step in self.as_slice() {
            end += u32::from(step.span);
            last = last.max(end + u32::from(step.back.unwrap_or(0)));
        }
        last
    }

    // The same steps in the order with a number.
    fn in_order(&self, number: usize) -> Steps
        ensures count { result.count ≡ self.now.count }
        ensures steps { IsPermutation (take self.now.count self.now.list) (take self.now.count result.list) }
        ensures order { take self.now.count result.list ≡ arranged (take self.now.count self.now.list) number }
    {
        let count = self.count;
        let mut list = self.list;
        arrange(&mut list[..count], number);
        Steps::first(list, count)
    }

    // The least last finish over all orders of the steps, of which there is one at least.
    pub fn least_finish(&self) -> u32
        ensures { IsLeastFinish (take self.now.count self.now.list) result }
    {
        (0..ORDERS[self.count])
            .map(|number| self.in_order(number).last_finish())
            .min()
            .unwrap_or(u32::MAX)
    }
}
