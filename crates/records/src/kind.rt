// The kinds of record of tables and plans: their bytes, what a kind byte means, how long the body is that it fixes, and which kinds may stand where.
ghost use Rattle.std.specs.Prelude.{◌≡◌, Option};
ghost use Rattle.records.specs.declared.kind.Meaning.{Meaning};
ghost use Rattle.records.specs.Records.{form_of, frame_only, row_only, step_only};

// The bytes of the kinds, stated once; specs/Kinds.antt has the same, and `form_of` ties the two.
pub const FRAME: u8 = 0x10;

pub const HERE_JOB: u8 = 0x11;

pub const EITHER_JOB: u8 = 0x12;

pub const TABLE_END: u8 = 0x1F;

pub const RUN_HERE: u8 = 0x20;

pub const SEND_AWAY: u8 = 0x21;

pub const PLAN_END: u8 = 0x2F;

// The one record that a table begins with.
#[derive(Clone, Copy)]
pub struct FrameKind;

// The records of a table after the first.
#[derive(Clone, Copy)]
pub enum RowKind {
    HereRow,
    EitherRow,
    EndRow,
}

// The records of a plan.
#[derive(Clone, Copy)]
pub enum StepKind {
    HereStep,
    AwayStep,
    EndStep,
}

#[derive(Clone, Copy)]
pub enum Meaning {
    Frame,
    Row(RowKind),
    Step(StepKind),
}

#[derive(Clone, Copy)]
pub struct Form {
    pub meaning: Meaning,
    pub body: usize,
}

// The table of kinds: for every known byte what it means, and the length of the body that follows it.
pub fn form_of(kind: u8) -> Option<Form>
    ensures { result ≡ form_of kind }
{
    let (meaning, body) = match kind {
        FRAME => (Meaning::Frame, 2),
        HERE_JOB => (Meaning::Row(RowKind::HereRow), 3),
        EITHER_JOB => (Meaning::Row(RowKind::EitherRow), 7),
        TABLE_END => (Meaning::Row(RowKind::EndRow), 0),
        RUN_HERE => (Meaning::Step(StepKind::HereStep), 1),
        SEND_AWAY => (Meaning::Step(StepKind::AwayStep), 1),
        PLAN_END => (Meaning::Step(StepKind::EndStep), 0),
        _ => return None,
    };
    Some(Form { meaning, body })
}

// The kinds that may stand at a place of a file: the frame record first, then rows; in a plan steps. A kind that may not stand there is no error
// with a value, so this is no TryFrom.
pub trait Allowed: Drop {
    ghost only: { Meaning → Option Self };

    fn of(meaning: Meaning) -> Option<Self>
        ensures { result ≡ only meaning };
}

impl Allowed for FrameKind {
    ghost only = { frame_only };

    fn of(meaning: Meaning) -> Option<FrameKind> {
        match meaning {
            Meaning::Frame => Some(FrameKind),
            _ => None,
        }
    }
}

impl Allowed for RowKind {
    ghost only = { row_only };

    fn of(meaning: Meaning) -> Option<RowKind> {
        match meaning {
            Meaning::Row(kind) => Some(kind),
            _ => None,
        }
    }
}

impl Allowed for StepKind {
    ghost only = { step_only };

    fn of(meaning: Meaning) -> Option<StepKind> {
        match meaning {
            Meaning::Step(kind) => Some(kind),
            _ => None,
        }
    }
}
