// The search: all choices that a rule tries, each with its plan and when it is done; the best of them, and the least deadline.
// Nothing is sorted but a plan's own order, from which the search for the least last finish does not start, and no result is built from that
// of another choice.

use crate::answers::{Answer, NONE};
use crate::choices::Choice;
use crate::jobs::Jobs;
use crate::rules::Rule;
use crate::steps::Steps;
use records::refusal::Said;
use std::cmp::Ordering;
use table::Table;

// A choice with its steps in the order of its plan, its busy total, and when it is done.
#[derive(Clone, Copy)]
pub struct Tried {
    pub choice: Choice,
    pub listed: Steps,
    pub busy: u32,
    pub finish: u32,
}

// The best choice, and whether another one has the same busy total.
#[derive(Clone, Copy)]
pub struct Best {
    pub tried: Tried,
    pub tied: bool,
}

// The choices of a table's jobs by their numbers; `None` stands for one that the rule does not try.
#[derive(Clone, Copy)]
pub struct Search<'a, R> {
    pub jobs: &'a Jobs,
    rule: R,
    all: [Option<Tried>; Choice::COUNT],
}

fn try_choice(jobs: &Jobs, choice: Choice, rule: &impl Rule) -> Option<Tried> {
    let steps = Steps::of(jobs, choice, rule)?;
    let listed = steps.listed(rule);
    Some(Tried {
        choice,
        listed,
        busy: listed.busy(),
        finish: rule.finish(&steps),
    })
}

impl<'a, R: Rule + Copy> Search<'a, R> {
    // Tries all choices.
    pub fn new(jobs: &'a Jobs, rule: R) -> Self {
        let mut all = [None; Choice::COUNT];
        let choices = 0..1u8 << jobs.as_slice().len();
        for (tried, number) in all.iter_mut().zip(choices) {
            *tried = try_choice(jobs, Choice::numbered(number), &rule);
        }
        Search { jobs, rule, all }
    }

    // The same choices, of which the best goes by another rule.
    pub fn under<S: Rule + Copy>(&self, rule: S) -> Search<'a, S> {
        let jobs = self.jobs;
        let all = self.all;
        Search { jobs, rule, all }
    }

    // When the first of the choices is done.
    pub fn least_finish(&self) -> Option<u32> {
        self.all.iter().flatten().map(|tried| tried.finish).min()
    }

    // The least deadline that some choice meets: at least 1, and none above the largest time.
    pub fn least_deadline(&self) -> Result<u16, Said> {
        self.least_finish()
            .and_then(|least| u16::try_from(least).ok())
            .filter(|least| *least <= Table::LARGEST_TIME)
            .map(|least| least.max(1))
            .ok_or(NONE)
    }

    // The better of the best so far and one more choice.
    fn better(&self, best: Best, next: Best) -> Best {
        match next.tried.busy.cmp(&best.tried.busy) {
            Ordering::Less => next,
            Ordering::Greater => best,
            Ordering::Equal => {
                let wins = self
                    .rule
                    .wins(self.jobs, next.tried.choice, best.tried.choice);
                Best {
                    tried: if wins { next.tried } else { best.tried },
                    tied: true,
                }
            }
        }
    }

    // The best of the choices that are done by the deadline.
    pub fn best(&self, deadline: u16) -> Option<Best> {
        self.all
            .iter()
            .flatten()
            .filter(|tried| tried.finish <= u32::from(deadline))
            .map(|tried| Best {
                tried: *tried,
                tied: false,
            })
            .reduce(|best, next| self.better(best, next))
    }

    // The answer that goes with the best choice.
    pub fn answer(&self, deadline: u16) -> Answer {
        Answer::expected(self.best(deadline))
    }
}
