// What is found of the tables: how often, over all of them, and the report.

use crate::answers::{Answer, NONE};
use crate::search::Best;
use records::refusal::Said;
use std::fmt;

// How often a planner of one order answered what.
#[derive(Clone, Copy, Default)]
pub struct OrderCounts {
    plans: u64,
    none: u64,
    // Plans with a tie to settle, and plans that send a job away.
    ties: u64,
    away: u64,
    differences: u64,
}

#[derive(Clone, Copy, Default)]
pub struct LeastCounts {
    found: u64,
    none: u64,
    differences: u64,
    // Where the tables' own deadlines lie.
    one_below: u64,
    at: u64,
}

// How many tables would catch a planner that is wrong on purpose.
#[derive(Clone, Copy, Default)]
pub struct CaughtCounts {
    pub sooner_only: u64,
    pub shortest_first: u64,
    pub ties: u64,
    pub none: u64,
}

#[derive(Clone, Copy, Default)]
pub struct Report {
    tables: u64,
    // Tables of 0 to 6 jobs.
    sizes: [u64; 7],
    pub free: OrderCounts,
    pub given: OrderCounts,
    pub only_free: u64,
    pub least: LeastCounts,
    pub caught: CaughtCounts,
}

// One more, where it is so; there are far too few tables for a count to reach the top.
pub fn count(total: &mut u64, so: bool) {
    *total = total.saturating_add(u64::from(so));
}

impl OrderCounts {
    // Counts an answer, beside the one that goes with the best choice.
    pub fn add(&mut self, answer: &Answer, best: Option<Best>) {
        count(&mut self.plans, answer.plan.is_ok());
        count(&mut self.none, answer.plan == Err(NONE));
        count(&mut self.ties, best.is_some_and(|best| best.tied));
        count(
            &mut self.away,
            best.is_some_and(|best| !best.tried.choice.is_empty()),
        );
        count(&mut self.differences, *answer != Answer::expected(best));
    }

    fn write<W: fmt::Write>(&self, f: &mut fmt::Formatter<W>, order: &str) -> fmt::Result {
        writeln!(f, "{order} order: plans {}", self.plans)?;
        writeln!(f, "{order} order: NONE {}", self.none)?;
        writeln!(f, "{order} order: plans with a tie to settle {}", self.ties)?;
        writeln!(f, "{order} order: plans that send a job away {}", self.away)?;
        writeln!(f, "{order} order: differences {}", self.differences)
    }
}

impl LeastCounts {
    // Counts an answer, beside the least deadline that some choice meets and the table's own.
    pub fn add(&mut self, answer: Result<u16, Said>, least: Result<u16, Said>, deadline: u16) {
        count(&mut self.found, answer.is_ok());
        count(&mut self.none, answer == Err(NONE));
        count(&mut self.differences, answer != least);
        count(
            &mut self.one_below,
            least.is_ok_and(|least| u32::from(deadline) + 1 == u32::from(least)),
        );
        count(&mut self.at, least == Ok(deadline));
    }
}

impl Report {
    // Counts a table of so many jobs.
    pub fn add_table(&mut self, jobs: usize) {
        count(&mut self.tables, true);
        if let Some(tables) = self.sizes.get_mut(jobs) {
            count(tables, true);
        }
    }
}

impl fmt::Display for Report {
    fn fmt<W: fmt::Write>(&self, f: &mut fmt::Formatter<W>) -> fmt::Result {
        writeln!(f, "tables {}", self.tables)?;
        for (jobs, tables) in self.sizes.iter().enumerate() {
            let plural = if jobs == 1 { "" } else { "s" };
            writeln!(f, "  of {jobs} job{plural} {tables}")?;
        }
        self.free.write(f, "free")?;
        self.given.write(f, "given")?;
        writeln!(
            f,
            "a plan in free order and NONE in given order {}",
            self.only_free
        )?;
        self.least.fmt(f)?;
        self.caught.fmt(f)
    }
}

impl fmt::Display for LeastCounts {
    fn fmt<W: fmt::Write>(&self, f: &mut fmt::Formatter<W>) -> fmt::Result {
        writeln!(f, "least deadline: found {}", self.found)?;
        writeln!(f, "least deadline: NONE {}", self.none)?;
        writeln!(f, "least deadline: differences {}", self.differences)?;
        writeln!(f, "deadline one below the least {}", self.one_below)?;
        writeln!(f, "deadline at the least {}", self.at)
    }
}

impl fmt::Display for CaughtCounts {
    fn fmt<W: fmt::Write>(&self, f: &mut fmt::Formatter<W>) -> fmt::Result {
        let catch = "tables that catch";
        writeln!(
            f,
            "{catch} sending away only where S + I < C: {}",
            self.sooner_only
        )?;
        writeln!(f, "{catch} shortest return first: {}", self.shortest_first)?;
        writeln!(f, "{catch} ties settled the other way: {}", self.ties)?;
        writeln!(f, "{catch} NONE to all: {}", self.none)
    }
}
