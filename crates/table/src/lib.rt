// A job table: its numbers, its records as bytes, and its reader. Reads any bytes, and refuses by number and place.
#![tactic(auto)]

ghost use Rattle.std.specs.Prelude.{◌≡◌, ◌+◌, ◌<◌, ◌≤◌, length};
ghost use Rattle.records.specs.Limits.{most_jobs, largest_time, longest_table, longest_plan};
ghost use Rattle.table.specs.Tables.{time_at, frame_at, here_job, either_job, job_at, jobs_read, with_deadline, read_table, empty_table, table_read};

use model::{Job, Sending};
use records::kind::{FrameKind, RowKind};
use records::record;
use records::record::Record;
use records::refusal::{Place, Refusal};

// Memory is fixed, so the jobs are an array with its count, as a plan's steps are. The count's bound stands in the contracts: in the type, every
// definition that makes a table of a list would carry a proof of it, and a slice of jobs has no bound in its type.
// Nor are they one generic type with plans and orders: jobs, steps and positions keep their names.
#[derive(Clone, Copy)]
pub struct Table {
    pub deadline: u16,
    pub count: usize,
    pub jobs: [Job; Table::MOST_JOBS],
}

impl Table {
    pub const MOST_JOBS: usize = 32;

    pub const LARGEST_TIME: u16 = 4000;

    pub const LONGEST_TABLE: usize = 260;

    pub const LONGEST_PLAN: usize = 65;

    // The table with no jobs.
    pub fn empty() -> Table
        ensures { result ≡ empty_table }
    {
        let jobs = [Job::NONE; Table::MOST_JOBS];
        Table {
            deadline: 0,
            count: 0,
            jobs,
        }
    }

    // This and the next three tie the constants to their names in specs/Limits.antt, each by a clause of its own.
    pub fn most_jobs() -> usize
        ensures { result ≡ most_jobs }
    {
        Table::MOST_JOBS
    }

    // The largest time that a table may have.
    pub fn largest_time() -> u16
        ensures { result ≡ largest_time }
    {
        Table::LARGEST_TIME
    }

    // A table's most bytes.
    pub fn longest_table() -> usize
        ensures { result ≡ longest_table }
    {
        Table::LONGEST_TABLE
    }

    // A plan's most bytes.
    pub fn longest_plan() -> usize
        ensures { result ≡ longest_plan }
    {
        Table::LONGEST_PLAN
    }
}

// A time of the record at a place, so many bytes behind its kind byte.
fn time_at(s: &[u8], p: Place, behind: usize) -> Result<u16, Refusal>
    requires { p.at + behind + 1 < length s.now }
    ensures { result ≡ time_at s.now p behind }
{
    let time = octets::two_at(s, p.at + behind);
    if Table::LARGEST_TIME < time {
        return Err(Refusal::Range(p));
    }
    Ok(time)
}

// The record at a place where a table begins: the deadline, and the place of the record after it.
fn frame_at(s: &[u8], p: Place) -> Result<(u16, Place), Refusal>
    ensures { result ≡ frame_at s.now p }
{
    let frame = record::opened::<FrameKind>(s, p)?;
    let deadline = time_at(s, p, 1)?;
    if deadline == 0 {
        return Err(Refusal::Range(p));
    }
    Ok((deadline, frame.next))
}

fn here_job(s: &[u8], p: Place, next: Place) -> Result<Record<Job>, Refusal>
    requires { p.at + 3 < length s.now }
    ensures { result ≡ here_job s.now p next }
{
    let job = Job {
        id: s[p.at + 1],
        local: time_at(s, p, 2)?,
        sending: Sending::HereOnly,
    };
    Ok(Record::Listed(job, next))
}

fn either_job(s: &[u8], p: Place, next: Place) -> Result<Record<Job>, Refusal>
    requires { p.at + 7 < length s.now }
    ensures { result ≡ either_job s.now p next }
{
    let job = Job {
        id: s[p.at + 1],
        local: time_at(s, p, 2)?,
        sending: Sending::Either {
            setup: time_at(s, p, 4)?,
            back: time_at(s, p, 6)?,
        },
    };
    Ok(Record::Listed(job, next))
}

// The record at a place after the first, where `count` jobs stand before it.
fn job_at(s: &[u8], p: Place, count: usize) -> Result<Record<Job>, Refusal>
    ensures { result ≡ job_at s.now p count }
{
    let row = record::opened::<RowKind>(s, p)?;
    match row.kind {
        RowKind::EndRow => Ok(Record::Last(row.next)),
        _ if Table::MOST_JOBS <= count => Err(Refusal::Many(p)),
        RowKind::HereRow => here_job(s, p, row.next),
        RowKind::EitherRow => either_job(s, p, row.next),
    }
}

// The jobs behind a frame record; `seen` tells the ids that stand before.
fn jobs_from(s: &[u8], deadline: u16, first: Place) -> Result<Table, Refusal>
    ensures { result ≡ table_read (with_deadline deadline (jobs_read s.now first)) }
{
    let mut t = Table::empty();
    t.deadline = deadline;
    let mut seen = [false; 256];
    let mut p = first;
    loop {
        match job_at(s, p, t.count)? {
            Record::Listed(job, next) => {
                let id = job.id as usize;
                if seen[id] {
                    return Err(Refusal::Twice(p));
                }
                seen[id] = true;
                t.jobs[t.count] = job;
                t.count += 1;
                p = next;
            }
            Record::Last(next) => {
                record::ended_at(s, next)?;
                return Ok(t);
            }
        }
    }
}

// Reads any bytes as a table.
pub fn read_table(s: &[u8]) -> Result<Table, Refusal>
    ensures { result ≡ table_read (read_table s.now) }
{
    let (deadline, first) = frame_at(s, Place::start())?;
    jobs_from(s, deadline, first)
}
