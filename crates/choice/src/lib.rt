// From a table to the best choice: its either jobs are put in away order once, then the work rows are asked at a deadline.
// The least deadline is found by bisection over the same question.
#![tactic(auto)]

ghost use Rattle.std.specs.Prelude.{◌≡◌, ◌++◌, ◌-◌, ◌≤◌, ◌<◌, length, take, replicate, All};
ghost use Rattle.model.specs.Timetable.{Met};
ghost use Rattle.model.specs.Recurrence.{answer, base};
ghost use Rattle.model.specs.Positions.{no_job};
ghost use Rattle.records.specs.Limits.{largest_time, most_jobs};
ghost use Rattle.table.specs.Tables.{job_table, Sound};
ghost use Rattle.choice.specs.Choices.{prepared_of, Ready, OfItsJobs, flags_of, best_mask_of, IsEarliest, here_time, jobs_at, SaysWhether};

use model::Job;
use order::AwayOrder;
use table::Table;

// The either jobs with their positions in the table, in away order, and the local times of the here-only jobs in all. Positions and jobs are two
// arrays, since the rows take the jobs alone.
// That it is of a table's jobs the contracts ask by `Ready`, and no ghost field does: `prepared_of` has to be one of these for any jobs.
#[derive(Clone, Copy)]
pub struct Prepared {
    pub order: AwayOrder,
    pub jobs: [Job; Table::MOST_JOBS],
    pub base: u32,
}

impl Prepared {
    // The either jobs, without the entries behind them.
    pub fn away_jobs(&self) -> &[Job]
        requires { self.now.order.count ≤ most_jobs }
        ensures { result.now ≡ take self.now.order.count self.now.jobs }
    {
        &self.jobs[..self.order.count]
    }
}

// What a job adds to every choice: its local time if it is here-only, and nothing if it may go.
fn here_time(job: Job) -> u32
    ensures { (result ≡ here_time job) × (result ≤ 65535) }
{
    if job.may_go() { 0 } else { job.local as u32 }
}

// The local times of the here-only jobs in all.
fn base_of(jobs: &[Job]) -> u32
    requires { length jobs.now ≤ most_jobs }
    ensures { result ≡ base jobs.now }
{
    jobs.iter().map(|job| here_time(*job)).sum()
}

// The jobs at positions; the entries that none has hold a job of no time.
fn jobs_at(jobs: &[Job], positions: &[usize]) -> [Job; Table::MOST_JOBS]
    requires few { length positions.now ≤ most_jobs }
    requires known { All (λ p. p < length jobs.now) positions.now }
    ensures { result ≡ jobs_at jobs.now positions.now ++ replicate (most_jobs - length positions.now) no_job }
{
    let mut ordered = [Job::NONE; Table::MOST_JOBS];
    for (k, position) in positions.iter().enumerate() {
        ordered[k] = jobs[*position];
    }
    ordered
}

// What the table's deadline has no part in, so that one preparation serves every deadline that is asked.
pub fn prepare(t: &Table) -> Prepared
    requires { Sound t.now }
    ensures { result ≡ prepared_of (job_table t.now).jobs }
{
    let jobs = &t.jobs[..t.count];
    let order = order::away_order(jobs);
    Prepared {
        order,
        jobs: jobs_at(jobs, order.as_slice()),
        base: base_of(jobs),
    }
}

// The best choice at the deadline d, as a mask: bit j says that the j-th job in away order is away. None where no choice meets it. The deadline is a
// plain number with its bound in a clause, since the search for the least one makes it.
pub fn best_choice(d: u16, p: &Prepared) -> Option<u32>
    requires { (d ≤ largest_time) × Ready p.now }
    ensures { OfItsJobs p.now (λ js. result ≡ best_mask_of (answer d js)) }
{
    let least = rows::least(d as usize, p.base, p.away_jobs());
    if least.total <= d as u32 {
        Some(least.mask)
    } else {
        None
    }
}

// A flag for each position of the table: whether the choice that the mask stands for has the job there away. Flags beside the jobs, as the definitions
// have them: the choice is one of many of the same jobs.
pub fn flags_of(p: &Prepared, mask: u32) -> [bool; Table::MOST_JOBS]
    requires { Ready p.now }
    ensures { OfItsJobs p.now (λ js. result ≡ flags_of js mask) }
{
    let mut flags = [false; Table::MOST_JOBS];
    let mut left = mask;
    for position in p.order.as_slice() {
        flags[*position] = left % 2 == 1;
        left /= 2;
    }
    flags
}

// Whether some timetable meets the deadline d.
fn meets(d: u16, p: &Prepared) -> bool
    requires { (d ≤ largest_time) × Ready p.now }
    ensures { OfItsJobs p.now (λ js. SaysWhether result (Met d js)) }
{
    best_choice(d, p).is_some()
}

// The least deadline that some timetable meets; none, where not even the largest time is met.
// `high` is met, and `low` is not, or is 0: the two are brought together.
pub fn earliest(p: &Prepared) -> Option<u16>
    requires { Ready p.now }
    ensures { OfItsJobs p.now (λ js. IsEarliest largest_time js result) }
{
    if !meets(Table::LARGEST_TIME, p) {
        return None;
    }
    let mut low = 0u16;
    let mut high = Table::LARGEST_TIME;
    while 1 < high - low {
        let mid = low.midpoint(high);
        if meets(mid, p) {
            high = mid;
        } else {
            low = mid;
        }
    }
    Some(high)
}
