// A frame's log: its records, by their kind bytes, and the call that each one is.
// specs/Log.antt has the record at the front of a log and its call; docs/REPLAY.md has the bytes.
#![tactic(auto)]

ghost use Rattle.std.specs.Prelude.{◌≡◌, length};
ghost use Rattle.frame_log.specs.Log.{kind_of, event_size, record_size, fitting, record_at, value_of, event_of, begin_of, call_of};

use frame_record::{Called, Event, Frame};

// The records that fix their length.
#[derive(Clone, Copy)]
pub enum EventKind {
    Next,
    Span,
    Return,
    Close,
    Read,
}

#[derive(Clone, Copy)]
pub enum CallKind {
    Begin,
    Other(EventKind),
}

// A whole record at the front of a log.
#[derive(Clone, Copy)]
pub struct Whole {
    pub kind: CallKind,
    pub size: usize,
}

// The kind of a record by its first byte, stated once. A byte of no kind ends the log and is no error, so this is no TryFrom.
#[tactic(auto, unfolding(crate::specs::Log::kind_of))]
fn kind_of(b: u8) -> Option<CallKind>
    ensures { result ≡ kind_of b }
{
    match b {
        0x40 => Some(CallKind::Begin),
        0x41 => Some(CallKind::Other(EventKind::Next)),
        0x42 => Some(CallKind::Other(EventKind::Span)),
        0x43 => Some(CallKind::Other(EventKind::Return)),
        0x44 => Some(CallKind::Other(EventKind::Close)),
        0x45 => Some(CallKind::Other(EventKind::Read)),
        _ => None,
    }
}

impl EventKind {
    // How long the record of a kind is.
    fn size(self) -> usize
        ensures { result ≡ event_size self }
    {
        match self {
            EventKind::Next => 1,
            EventKind::Span => 8,
            EventKind::Return => 12,
            EventKind::Close => 3,
            EventKind::Read => 2,
        }
    }
}

// The record of a kind, where it is whole: a begin tells its own length.
fn read_as(s: &[u8], kind: CallKind) -> Option<Whole>
    ensures { result ≡ fitting kind (record_size kind s.now) (length s.now) }
{
    let size = match kind {
        CallKind::Begin if s.len() < 9 => return None,
        CallKind::Begin => 9 + octets::two_at(s, 5) as usize + octets::two_at(s, 7) as usize,
        CallKind::Other(k) => k.size(),
    };
    (size <= s.len()).then_some(Whole { kind, size })
}

// The record at the front of what is left of a log.
#[tactic(auto, unfolding(crate::specs::Log::record_at, crate::specs::Log::kind_of))]
pub fn record_at(s: &[u8]) -> Option<Whole>
    ensures { result ≡ record_at s.now }
{
    let kind = kind_of(*s.first()?)?;
    read_as(s, kind)
}

// The f32 of a pattern; every pattern of a NaN is the one NaN, which the record refuses.
#[tactic(auto, using(crate::proofs::Patterns::nan_value, crate::proofs::Patterns::number_pattern), unfolding(crate::specs::Log::value_of))]
fn value_of(bits: u32) -> f32
    ensures { result ≡ value_of bits }
{
    if 0x7f80_0000 < bits % 0x8000_0000 {
        return f32::NAN;
    }
    f32::from_bits(bits)
}

// The call of a whole record that is no begin. Its kind and its bytes stay two parameters: the bytes are those that the kind's length has cut off.
fn event_of(kind: EventKind, s: &[u8]) -> Event
    requires { event_size kind ≡ length s.now }
    ensures { result ≡ event_of kind s.now }
{
    match kind {
        EventKind::Next => Event::Next,
        EventKind::Span => Event::SpanEnd {
            id: s[1],
            time: octets::two_at(s, 2),
            value: value_of(octets::four_at(s, 4)),
        },
        EventKind::Return => Event::Return {
            number: octets::four_at(s, 1),
            id: s[5],
            time: octets::two_at(s, 6),
            value: value_of(octets::four_at(s, 8)),
        },
        EventKind::Close => Event::Close(octets::two_at(s, 1)),
        EventKind::Read => Event::Read(s[1]),
    }
}

// Begins with the table and the plan of a whole record.
fn begun(frame: Frame, s: &[u8]) -> Called
    requires { record_size CallKind.Begin s.now ≡ length s.now }
    ensures { result ≡ begin_of frame s.now }
{
    let end = 9 + octets::two_at(s, 5) as usize;
    let number = octets::four_at(s, 1);
    frame_begin::begin(frame, &s[9..end], &s[end..], number)
}

// Makes the call of a whole record.
pub fn called(frame: Frame, kind: CallKind, s: &[u8]) -> Called
    requires { record_size kind s.now ≡ length s.now }
    ensures { result ≡ call_of frame kind s.now }
{
    match kind {
        CallKind::Begin => begun(frame, s),
        CallKind::Other(k) => frame_calls::step(frame, event_of(k, s)),
    }
}
