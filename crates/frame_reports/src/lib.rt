// The calls that report a job's value: a span's end and a return. Each is refused, or moves one job on.
#![tactic(auto)]

ghost use Rattle.std.specs.Prelude.{◌≡◌, ◌<◌};
ghost use Rattle.records.specs.Limits.{most_jobs};
ghost use Rattle.frame_record.specs.Sound.{position_at};
ghost use Rattle.frame_record.specs.Answers.{answered};
ghost use Rattle.frame_reports.specs.Reports.{judged, moved, span_at, span_step, return_at, back_step};

use frame_record::{Called, Entry, Frame, Sample, Standing, finite};
use records::refusal::Refusal;

// What a value that comes at a time makes of its job; one that is no number is refused. Time and value stay two parameters, as document 01 lists what
// a call brings: the time also moves the clock, where there is no value.
fn judged(value: f32, number: u32, time: u16, deadline: u16) -> Result<Standing, Refusal>
    ensures { result ≡ judged value number time deadline }
{
    if !finite(value) {
        return Err(Refusal::Value);
    }
    if time <= deadline {
        return Ok(Standing::Held(Sample {
            value,
            frame: number,
        }));
    }
    Ok(Standing::Late)
}

// The job at a position of the table stands at s from now on. That the position is one the clauses say, since the record is lent in any state.
fn moved(mut f: Frame, at: usize, time: u16, next: usize, s: Standing) -> Frame
    requires { at < most_jobs }
    ensures { result ≡ moved f at time next s }
{
    let old = f.entries[at];
    f.entries[at] = Entry { standing: s, ..old };
    f.clock = time;
    f.next = next;
    f
}

// The span of the job at a position ends: the job is out, or has its value.
fn span_at(f: Frame, at: usize, time: u16, value: f32, away: bool) -> Result<Frame, Refusal>
    requires { (f.next < most_jobs) × (at < most_jobs) × (at ≡ position_at f.order f.next) }
    ensures { answered f result ≡ span_at f time value away }
{
    let next = f.next + 1;
    if away {
        return Ok(moved(f, at, time, next, Standing::Out));
    }
    let s = judged(value, f.number, time, f.deadline)?;
    Ok(moved(f, at, time, next, s))
}

// The record once the job on the panel has ended its span.
#[tactic(auto, using(frame_record::proofs::Laws::open_fits, frame_record::proofs::Laws::open_position), unfolding(crate::specs::Reports::span_step))]
fn ended(f: Frame, id: u8, time: u16, value: f32) -> Result<Frame, Refusal>
    ensures { answered f result ≡ span_step f id time value }
{
    if !f.is_open() {
        return Err(Refusal::Phase);
    }
    if time < f.clock {
        return Err(Refusal::Clock);
    }
    if f.count <= f.next {
        return Err(Refusal::Who);
    }
    let at = f.order[f.next];
    let e = f.entries[at];
    if e.id != id {
        return Err(Refusal::Who);
    }
    span_at(f, at, time, value, e.away)
}

// The job on the panel has ended its span: here, its value; away, it is now with its server.
pub fn span_end(f: Frame, id: u8, time: u16, value: f32) -> Called
    ensures { result ≡ span_step f id time value }
{
    f.answered(ended(f, id, time, value))
}

// A value comes back for the job at a position, which stands at s.
fn back_at(f: Frame, at: usize, time: u16, value: f32, s: Standing) -> Result<Frame, Refusal>
    requires { at < most_jobs }
    ensures { answered f result ≡ return_at f at time value s }
{
    let Standing::Out = s else {
        return Err(Refusal::Who);
    };
    let t = judged(value, f.number, time, f.deadline)?;
    Ok(moved(f, at, time, f.next, t))
}

// The record once a server has given a value back.
#[tactic(auto, using(frame_record::proofs::Laws::open_fits, frame_record::proofs::Laws::where_below), unfolding(crate::specs::Reports::back_step))]
fn given_back(f: Frame, number: u32, id: u8, time: u16, value: f32) -> Result<Frame, Refusal>
    ensures { answered f result ≡ back_step f number id time value }
{
    if !f.is_open() {
        return Err(Refusal::Phase);
    }
    if number != f.number {
        return Err(Refusal::Number);
    }
    let clock = f.clock;
    if time < clock {
        return Err(Refusal::Clock);
    }
    let at = f.position_of(id).ok_or(Refusal::Who)?;
    back_at(f, at, time, value, f.entries[at].standing)
}

// A server gives back a value under the frame number that it was sent. `return` is a word of the language, so the call has this
// name.
pub fn give_back(f: Frame, number: u32, id: u8, time: u16, value: f32) -> Called
    ensures { result ≡ back_step f number id time value }
{
    f.answered(given_back(f, number, id, time, value))
}
