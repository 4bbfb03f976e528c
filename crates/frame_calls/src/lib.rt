// Next, close and read, and the step that makes every call but begin: a record and a call give an answer and the record afterwards.
#![tactic(auto)]

ghost use Rattle.std.specs.Prelude.{◌≡◌};
ghost use Rattle.frame_record.specs.Answers.{answered};
ghost use Rattle.frame_calls.specs.Calls.{next_of, close_step, unreported, reading_of, read_of, asked, event_step};

use frame_record::{Answer, Called, Event, Frame, Phase, Reading, Standing};
use frame_reports::{give_back, span_end};
use records::refusal::Refusal;

// A call that only asks leaves the record as it was.
fn asked(frame: Frame, answer: Result<Answer, Refusal>) -> Called
    ensures { result ≡ asked frame answer }
{
    Called { answer, frame }
}

// The job now on the panel, or none left.
#[tactic(auto, using(frame_record::proofs::Laws::open_fits, frame_record::proofs::Laws::open_position), unfolding(crate::specs::Calls::next_of))]
pub fn panel_job(f: Frame) -> Result<Answer, Refusal>
    ensures { result ≡ next_of f }
{
    if !f.is_open() {
        return Err(Refusal::Phase);
    }
    if f.count <= f.next {
        return Ok(Answer::Rest);
    }
    let e = f.entries[f.order[f.next]];
    Ok(Answer::Panel(e.id, e.away))
}

// The record once the frame has ended; it stays as it is.
#[tactic(auto, unfolding(crate::specs::Calls::close_step))]
fn closed(f: Frame, time: u16) -> Result<Frame, Refusal>
    ensures { answered f result ≡ close_step f time }
{
    if !f.is_open() {
        return Err(Refusal::Phase);
    }
    if time < f.clock {
        return Err(Refusal::Clock);
    }
    if time < f.deadline {
        return Err(Refusal::Early);
    }
    Ok(Frame {
        phase: Phase::Closed,
        clock: time,
        ..f
    })
}

// The frame ends, at its deadline or later.
pub fn close(f: Frame, time: u16) -> Called
    ensures { result ≡ close_step f time }
{
    f.answered(closed(f, time))
}

// What a read says of a job without a value: pending while it can still come, and missing once the frame is closed.
fn unreported_in(phase: Phase) -> Reading
    ensures { result ≡ unreported phase }
{
    if phase == Phase::Open {
        Reading::Pending
    } else {
        Reading::Missing
    }
}

// What a read says of a job that stands at s.
fn reading_of(phase: Phase, s: Standing) -> Reading
    ensures { result ≡ reading_of phase s }
{
    match s {
        Standing::Held(x) => Reading::Fresh(x),
        Standing::Late => Reading::Late,
        Standing::Waiting | Standing::Out => unreported_in(phase),
    }
}

// What is known of a job, in the open frame or the last one.
#[tactic(auto, using(frame_record::proofs::Laws::begun_fits, frame_record::proofs::Laws::where_below), unfolding(crate::specs::Calls::read_of))]
pub fn read(f: Frame, id: u8) -> Result<Answer, Refusal>
    ensures { result ≡ read_of f id }
{
    if !f.has_begun() {
        return Err(Refusal::Phase);
    }
    let at = f.position_of(id).ok_or(Refusal::Who)?;
    Ok(Answer::Read(reading_of(f.phase, f.entries[at].standing)))
}

// Every call but begin.
pub fn step(f: Frame, e: Event) -> Called
    ensures { result ≡ event_step f e }
{
    match e {
        Event::Next => asked(f, panel_job(f)),
        Event::SpanEnd { id, time, value } => span_end(f, id, time, value),
        Event::Return {
            number,
            id,
            time,
            value,
        } => give_back(f, number, id, time, value),
        Event::Close(time) => close(f, time),
        Event::Read(id) => asked(f, read(f, id)),
    }
}
