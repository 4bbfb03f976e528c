// Where the job with an id stands in a table: one search, made once for a table, for all that look jobs up by their ids.
#![tactic(auto)]

ghost use Rattle.std.specs.Prelude.{◌≤◌, length};
ghost use Rattle.records.specs.Limits.{most_jobs};
ghost use Rattle.lookup.specs.Lookup.{Indexes};

use model::Job;
use table::Table;

// For each id the position of the first job that has it, and `Table::MOST_JOBS` where none has: the check compares with the count once, and those who
// know that the job is there have no Option to take apart.
// From the last job to the first, so that the first one stays.
pub fn index_of(jobs: &[Job]) -> [u8; 256]
    requires { length jobs.now ≤ most_jobs }
    ensures { Indexes jobs.now result }
{
    let mut index = [Table::MOST_JOBS as u8; 256];
    for i in (0..jobs.len()).rev() {
        index[jobs[i].id as usize] = i as u8;
    }
    index
}
