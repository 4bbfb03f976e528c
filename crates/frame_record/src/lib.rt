// The frame's record: what the panel's loop keeps of a frame, what a call answers, and the test that every call makes first.
// An unsound record is refused PHASE by every call and stays as found.
#![tactic(auto)]

ghost use Rattle.std.specs.Prelude.{◌≡◌, ◌≤◌};
ghost use Rattle.records.specs.Limits.{most_jobs};
ghost use Rattle.frame_record.specs.Finite.{finite?};
ghost use Rattle.frame_record.specs.Sound.{where_is, ok_entry, ok_from, ok_begun, sound?, open?, begun?, ready?};
ghost use Rattle.frame_record.specs.Answers.{idle, answered};

use records::refusal::Refusal;
use table::Table;

// Before any frame, during one, after one.
#[derive(Clone, Copy, PartialEq, Eq)]
pub enum Phase {
    Idle,
    Open,
    Closed,
}

// A value never stands without the number of its frame.
#[derive(Clone, Copy)]
pub struct Sample {
    pub value: f32,
    pub frame: u32,
}

// Where a job stands in the open frame; `Out` is with its server.
#[derive(Clone, Copy)]
pub enum Standing {
    Waiting,
    Out,
    Held(Sample),
    Late,
}

// What a read says of a job: only a fresh reading carries a value.
#[derive(Clone, Copy)]
pub enum Reading {
    Fresh(Sample),
    Pending,
    Late,
    Missing,
}

// A job of the table: whether the plan sends it away, and where it stands.
#[derive(Clone, Copy)]
pub struct Entry {
    pub id: u8,
    pub away: bool,
    pub standing: Standing,
}

impl Entry {
    // What stands behind the jobs.
    pub const NONE: Entry = Entry {
        id: 0,
        away: false,
        standing: Standing::Waiting,
    };
}

// The entries stand in table order; order[k] is the table position of the k-th job of the plan, and `next` how far the plan is. Fixed memory: a plain
// block that the caller may lend in any state, so arrays with their count, and fields that an idle record has too.
#[derive(Clone, Copy)]
pub struct Frame {
    pub phase: Phase,
    pub number: u32,
    pub clock: u16,
    pub deadline: u16,
    pub count: usize,
    pub next: usize,
    pub order: [usize; Table::MOST_JOBS],
    pub entries: [Entry; Table::MOST_JOBS],
}

// What an accepted call is answered; a refused one has its refusal. specs/Answers.antt has the numbers that both say.
#[derive(Clone, Copy)]
pub enum Answer {
    Done,
    Panel(u8, bool),
    Rest,
    Read(Reading),
}

// What a call gives: its answer, and the record afterwards.
#[derive(Clone, Copy)]
pub struct Called {
    pub answer: Result<Answer, Refusal>,
    pub frame: Frame,
}

// Every call but begin, as a value.
#[derive(Clone, Copy)]
pub enum Event {
    Next,
    SpanEnd {
        id: u8,
        time: u16,
        value: f32,
    },
    Return {
        number: u32,
        id: u8,
        time: u16,
        value: f32,
    },
    Close(u16),
    Read(u8),
}

// Whether x is a number, neither NaN nor infinite: a rule of the frame, by the library's test.
pub fn finite(x: f32) -> bool
    ensures { result ≡ finite? x }
{
    x.is_finite()
}

// What the k-th job of the plan may stand at, by whether the panel is past it.
fn entry_ok(number: u32, passed: bool, e: Entry) -> bool
    ensures { result ≡ ok_entry number passed e }
{
    match e.standing {
        Standing::Waiting => !passed,
        Standing::Out => passed && e.away,
        Standing::Held(x) => passed && x.frame == number && finite(x.value),
        Standing::Late => passed,
    }
}

impl Frame {
    // A record before any frame. A restart from here is a new sequence of calls: the caller goes on above the old numbers.
    pub fn idle() -> Frame
        ensures { result ≡ idle }
    {
        Frame {
            phase: Phase::Idle,
            number: 0,
            clock: 0,
            deadline: 0,
            count: 0,
            next: 0,
            order: [0; Table::MOST_JOBS],
            entries: [Entry::NONE; Table::MOST_JOBS],
        }
    }

    // What a call gives that makes another record of this one, or refuses to: a refused call leaves the record as it was.
    pub fn answered(self, made: Result<Frame, Refusal>) -> Called
        ensures { result ≡ answered self made }
    {
        match made {
            Ok(frame) => Called {
                answer: Ok(Answer::Done),
                frame,
            },
            Err(refusal) => Called {
                answer: Err(refusal),
                frame: self,
            },
        }
    }

    // Each job of the plan has a position of its own in the table, each job of the table an id of its own, and each stands where it may.
    // One pass: the flags tell the positions and the ids that have come.
    fn positions_ok(&self) -> bool
        requires { self.now.count ≤ most_jobs }
        ensures { result ≡ ok_from self.now 0 self.now.count }
    {
        let mut positions = [false; Table::MOST_JOBS];
        let mut ids = [false; 256];
        for k in 0..self.count {
            let position = self.order[k];
            if self.count <= position || positions[position] {
                return false;
            }
            positions[position] = true;
            let id = self.entries[k].id as usize;
            if ids[id] || !entry_ok(self.number, k < self.next, self.entries[position]) {
                return false;
            }
            ids[id] = true;
        }
        true
    }

    // What a sound record asks once a frame has begun: docs/ has the list.
    fn ok_begun(&self) -> bool
        ensures { result ≡ ok_begun self.now }
    {
        self.count <= Table::MOST_JOBS
            && self.next <= self.count
            && 1 <= self.deadline
            && self.deadline <= Table::LARGEST_TIME
            && self.positions_ok()
    }

    // Whether the record is sound: the test that every call makes first.
    pub fn sound(&self) -> bool
        ensures { result ≡ sound? self.now }
    {
        self.phase == Phase::Idle || self.ok_begun()
    }

    // Sound, and during a frame.
    pub fn is_open(&self) -> bool
        ensures { result ≡ open? self.now }
    {
        self.phase == Phase::Open && self.sound()
    }

    // Sound, and during a frame or after one.
    pub fn has_begun(&self) -> bool
        ensures { result ≡ begun? self.now }
    {
        self.phase != Phase::Idle && self.sound()
    }

    // Sound, and before a frame or after one.
    pub fn is_ready(&self) -> bool
        ensures { result ≡ ready? self.now }
    {
        self.phase != Phase::Open && self.sound()
    }

    // Where the job of an id stands in the table.
    pub fn position_of(&self, id: u8) -> Option<usize>
        requires { self.now.count ≤ most_jobs }
        ensures { result ≡ where_is self.now id }
    {
        self.entries[..self.count].iter().position(|e| e.id == id)
    }
}
