// The frame runner on a record that the panel's loop lends: each function takes the record apart, calls the step by value and leaves
// the record brought up to date where it lies. Two functions serve every call: begin, and the others by an event.
#![tactic(auto)]

ghost use Rattle.std.specs.Prelude.{◌≡◌};
ghost use Rattle.frame_begin.specs.Begin.{begin_step};
ghost use Rattle.frame_calls.specs.Calls.{event_step};

use frame_record::{Answer, Event, Frame};
use records::refusal::Refusal;

// Opens a frame with a table and a plan for it.
pub fn begin_in(f: &mut Frame, table: &[u8], plan: &[u8], number: u32) -> Result<Answer, Refusal>
    ensures { record { answer = result; frame = f.new } ≡ begin_step f.old table.now plan.now number }
{
    let s = frame_begin::begin(*f, table, plan, number);
    *f = s.frame;
    s.answer
}

// Every other call.
pub fn call_in(f: &mut Frame, e: Event) -> Result<Answer, Refusal>
    ensures { record { answer = result; frame = f.new } ≡ event_step f.old e }
{
    let s = frame_calls::step(*f, e);
    *f = s.frame;
    s.answer
}
