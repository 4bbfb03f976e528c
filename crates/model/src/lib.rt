// A job of the table, as document 01 has it: an id, a local time C, and for an either job a setup time S and a return time I.
// What timetables, choices, plans and runs of such jobs are stands in specs/, and what is true of them in proofs/.
#![tactic(auto)]

ghost use Rattle.std.specs.Prelude.{◌≡◌, ◌≤◌};
ghost use Rattle.model.specs.Timetable.{is_either, setup_time, return_time, span, wait};
ghost use Rattle.model.specs.Laying.{chosen, laid_with, most_busy};

// Whether a job may be sent away: a here-only job has no setup and no return time, an either job has both.
// The two kinds have the document's names; an Option of two times would leave the reader to guess which is which.
#[derive(Clone, Copy)]
pub enum Sending {
    HereOnly,
    Either { setup: u16, back: u16 },
}

#[derive(Clone, Copy)]
pub struct Job {
    pub id: u8,
    pub local: u16,
    pub sending: Sending,
}

impl Job {
    // What stands in an entry that no job has: a job of no time.
    pub const NONE: Job = Job {
        id: 0,
        local: 0,
        sending: Sending::HereOnly,
    };

    // Whether the job may be sent away.
    pub fn may_go(self) -> bool
        ensures { result ≡ is_either self }
    {
        matches!(self.sending, Sending::Either { .. })
    }

    // S, and 0 for a here-only job.
    pub fn setup_time(self) -> u16
        ensures { result ≡ setup_time self }
    {
        match self.sending {
            Sending::HereOnly => 0,
            Sending::Either { setup, .. } => setup,
        }
    }

    // I, and 0 for a here-only job.
    pub fn return_time(self) -> u16
        ensures { result ≡ return_time self }
    {
        match self.sending {
            Sending::HereOnly => 0,
            Sending::Either { back, .. } => back,
        }
    }
}

// How long the job's span on the panel is: C here, S away. Job and way stay two parameters: they meet in a call, and nothing here keeps the pair.
pub fn span_of(job: Job, away: bool) -> u32
    ensures { (result ≡ span (chosen job away)) × (result ≤ 65535) }
{
    let span = if away { job.setup_time() } else { job.local };
    u32::from(span)
}

// From the span's end to the finish: nothing here, I away.
pub fn wait_of(job: Job, away: bool) -> u32
    ensures { (result ≡ wait (chosen job away)) × (result ≤ 65535) }
{
    if away {
        u32::from(job.return_time())
    } else {
        0
    }
}

// Jobs laid back to back from tick 0: the sum of their spans, which is when the last span ends, and the latest finish. Its bound is that of 32 jobs,
// so the contracts have it: each job more raises the sum, and the type does not count them.
#[derive(Clone, Copy)]
pub struct Laid {
    pub busy: u32,
    pub last: u32,
}

impl Laid {
    // With one job more behind the others.
    pub fn with(self, job: Job, away: bool) -> Laid
        requires { self.busy ≤ most_busy }
        ensures { result ≡ laid_with self (chosen job away) }
    {
        let busy = self.busy + span_of(job, away);
        let finish = busy + wait_of(job, away);
        let last = self.last.max(finish);
        Laid { busy, last }
    }
}
