// Bytes at the front of an area: a table, or a plan in the area that a planner is lent.
// The area is longer than the longest plan, so that a byte written behind a plan shows.
ghost use Rattle.std.specs.Prelude.{◌+◌, ◌≤◌};

use crate::jobs::{Job, Jobs};
use crate::row::Row;
use crate::steps::Steps;

pub const AREA: usize = 72;

// The kind bytes of tables and plans, in the trial's own words: it takes none from what it judges.
const FRAME: u8 = 0x10;

const HERE_JOB: u8 = 0x11;

const EITHER_JOB: u8 = 0x12;

const TABLE_END: u8 = 0x1F;

const RUN_HERE: u8 = 0x20;

const SEND_AWAY: u8 = 0x21;

const PLAN_END: u8 = 0x2F;

// No record's kind.
const FILLER: u8 = 0xA5;

// The area before it is lent.
pub const UNTOUCHED: [u8; AREA] = [FILLER; AREA];

pub type Bytes = Row<u8, AREA>;

// Puts a job's record behind the others.
fn put_job(bytes: &mut Bytes, job: &Job)
    requires { bytes.old.count + 8 ≤ AREA }
    ensures { bytes.new.count ≤ bytes.old.count + 8 }
{
    let kind = if job.away.is_some() {
        EITHER_JOB
    } else {
        HERE_JOB
    };
    bytes.extend(&[kind, job.id]);
    bytes.extend(&job.local.to_le_bytes());
    if let Some(away) = job.away {
        bytes.extend(&away.setup.to_le_bytes());
        bytes.extend(&away.back.to_le_bytes());
    }
}

// A table of these jobs and this deadline.
pub fn table_bytes(jobs: &Jobs, deadline: u16) -> Bytes {
    let mut bytes = Bytes::none(FILLER);
    bytes.push(FRAME);
    bytes.extend(&deadline.to_le_bytes());
    for job in jobs.as_slice() {
        put_job(&mut bytes, job);
    }
    bytes.push(TABLE_END);
    bytes
}

// A plan that lists these steps.
pub fn plan_bytes(listed: &Steps) -> Bytes {
    let mut bytes = Bytes::none(FILLER);
    for step in listed.as_slice() {
        let kind = if step.back.is_some() {
            SEND_AWAY
        } else {
            RUN_HERE
        };
        bytes.extend(&[kind, step.id]);
    }
    bytes.push(PLAN_END);
    bytes
}
