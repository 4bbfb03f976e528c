// The trial: tables of 0 to 6 jobs, each planned in free order, in given order and for the least deadline, and compared with a search
// over all choices and all orders. Prints how many tables came out how, and how many would catch a planner that is wrong on purpose.
#![tactic(auto)]

mod answers; // answers.rt: what the search says that a planner is to answer
mod asked; // asked.rt: the planners, asked over bytes
mod bytes; // bytes.rt: tables and plans as bytes
mod choices; // choices.rt: sets of jobs
mod jobs; // jobs.rt: the jobs of a table
mod report; // report.rt: the counts and the report
mod row; // row.rt: items in fixed memory
mod rules; // rules.rt: what a planner goes by
mod search; // search.rt: all choices, and the best of them
mod steps; // steps.rt: the steps of a choice, and when they are done, by trying all orders
mod tables; // tables.rt: the tables, from fixed numbers

use answers::Answer;
use report::{CaughtCounts, Report, count};
use rules::{FreeOrder, GivenOrder, ShortestReturnFirst, SoonerOnly, TiesTheOtherWay};
use search::Search;
use std::io;

const TABLES: u64 = 4000;

// Asks the three planners, and holds their answers to the search.
fn try_planners(free: &Search<FreeOrder>, table: &[u8], deadline: u16, report: &mut Report) {
    let best = free.best(deadline);
    let answer = asked::plan(planner::plan_free, table);
    report.free.add(&answer, best);
    let given_best = Search::new(free.jobs, GivenOrder).best(deadline);
    let given_answer = asked::plan(planner::plan_given, table);
    report.given.add(&given_answer, given_best);
    let only_free = best.is_some() && given_best.is_none();
    count(&mut report.only_free, only_free);
    let least = asked::least_deadline(table);
    report.least.add(least, free.least_deadline(), deadline);
}

// Tells which errors that look right give another answer than the right one: sending away only where S + I < C, shortest return first, ties
// settled the other way, NONE to all.
fn try_errors(free: &Search<FreeOrder>, deadline: u16, caught: &mut CaughtCounts) {
    let right = free.answer(deadline);
    let sooner_only = Search::new(free.jobs, SoonerOnly).answer(deadline);
    let shortest_first = Search::new(free.jobs, ShortestReturnFirst).answer(deadline);
    let ties = free.under(TiesTheOtherWay).answer(deadline);
    count(&mut caught.sooner_only, sooner_only != right);
    count(&mut caught.shortest_first, shortest_first != right);
    count(&mut caught.ties, ties != right);
    count(&mut caught.none, Answer::NONE != right);
}

// Tries the table with this number.
fn try_table(number: u64, report: &mut Report) {
    let jobs = &tables::jobs_of(number);
    let free = &Search::new(jobs, FreeOrder);
    let deadline = tables::deadline_of(number, free.least_finish());
    let table = bytes::table_bytes(jobs, deadline);
    report.add_table(jobs.as_slice().len());
    try_planners(free, table.as_slice(), deadline, report);
    try_errors(free, deadline, &mut report.caught);
}

// Tries all tables, and prints the report.
fn main(rt: HostRuntime) -> io::Result<()> {
    let mut report = Report::default();
    for number in 0..TABLES {
        try_table(number, &mut report);
    }
    rt.print(report)
}
