// What the calls come to. Accepted calls other than a begin and the reads count among the calls alone.

use crate::calls;
use frame_record::{Answer, Reading};
use records::refusal::Refusal;
use std::fmt;

#[derive(Clone, Copy, Default)]
pub struct Counts {
    begun: u64,
    calls: u64,
    fresh: u64,
    late: u64,
    missing: u64,
    // Refused NUMBER, which is due to an old answer alone.
    old_refused: u64,
    other_refused: u64,
    pending: u64,
    // Fresh, and not this frame's own.
    stale: u64,
}

// One more; the shift is far too short for a count to reach the top. The programs share no crate for one line.
fn bump(count: &mut u64) {
    *count = count.saturating_add(1);
}

impl Counts {
    // Counts a begin.
    pub fn begun(&mut self, outcome: Result<Answer, Refusal>) {
        bump(&mut self.calls);
        match outcome {
            Ok(_) => bump(&mut self.begun),
            Err(_) => bump(&mut self.other_refused),
        }
    }

    // Counts a call that is no begin and no read.
    pub fn called(&mut self, outcome: Result<Answer, Refusal>) {
        bump(&mut self.calls);
        match outcome {
            Ok(_) => {}
            Err(Refusal::Number) => bump(&mut self.old_refused),
            Err(_) => bump(&mut self.other_refused),
        }
    }

    // Counts a read: a fresh reading is held to this frame's number and this job's value in it.
    pub fn read(&mut self, outcome: Result<Answer, Refusal>, number: u32, id: u8) {
        bump(&mut self.calls);
        match outcome {
            Ok(Answer::Read(Reading::Fresh(sample))) => {
                if calls::is_own(sample, number, id) {
                    bump(&mut self.fresh)
                } else {
                    bump(&mut self.stale)
                }
            }
            Ok(Answer::Read(Reading::Pending)) => bump(&mut self.pending),
            Ok(Answer::Read(Reading::Late)) => bump(&mut self.late),
            Ok(Answer::Read(Reading::Missing)) => bump(&mut self.missing),
            _ => bump(&mut self.other_refused),
        }
    }
}

impl fmt::Display for Counts {
    fn fmt<W: fmt::Write>(&self, f: &mut fmt::Formatter<W>) -> fmt::Result {
        writeln!(f, "frames begun {}", self.begun)?;
        writeln!(f, "calls made {}", self.calls)?;
        writeln!(f, "fresh readings {}", self.fresh)?;
        writeln!(f, "late readings {}", self.late)?;
        writeln!(f, "missing {}", self.missing)?;
        writeln!(f, "old answers refused with 13: {}", self.old_refused)?;
        writeln!(f, "other refusals {}", self.other_refused)?;
        writeln!(f, "pending after the close {}", self.pending)?;
        writeln!(f, "stale readings {}", self.stale)
    }
}
