// A frame's log as text: calls read from bytes, made one after another on one record, a line written for each.
// specs/Turns.antt has the frame's record after a log, specs/Lines.antt the line of each call and the text of a log.
// `replay_to` says what any writer is handed; no contract can speak of standard output, which `replay` hands it.
#![tactic(auto)]

ghost use Rattle.std.specs.Prelude.{◌≡◌, ◌+◌, ◌≤◌, length, OnOk, OnErr, IsOk};
ghost use Rattle.std.specs.Io.KnownBytes.{Appends};
ghost use Rattle.std.specs.Float.Ieee.{to_bits};
ghost use Rattle.std.specs.Float.{binary32};
ghost use Rattle.octets.specs.Writing.{Wrote};
ghost use Rattle.lines.specs.Lines.{refused_room};
ghost use Rattle.frame_log.specs.Log.{record_size};
ghost use Rattle.replaying.specs.Turns.{replayed};
ghost use Rattle.replaying.specs.Lines.{call_word, panel_text, pattern_text, fresh_text, reading_text, answer_text, stopped_line, line_room};
ghost use Rattle.replaying.specs.Lines.{Shows, TurnAt, replay_text};

use frame_log::{CallKind, EventKind, Whole};
use frame_record::{Answer, Frame, Reading, Sample};
use records::refusal::Refusal;
use std::io;
use std::io::Write;

// What one turn leaves: the frame's record, how many bytes of the log it took, and how many its line has, which stands in an area of fixed memory.
#[derive(Clone, Copy)]
pub struct Turn {
    pub frame: Frame,
    pub gone: usize,
    pub size: usize,
}

// The pattern of a value; a NaN, which no reading has, is written as one pattern of a NaN.
#[tactic(auto, using(crate::proofs::Patterns::nan_pattern))]
fn pattern_of(x: f32) -> u32
    ensures { result ≡ to_bits binary32 x }
{
    if x.is_nan() {
        return 0x7fc0_0000;
    }
    x.to_bits()
}

// The word that a call's line begins with.
fn word_of(kind: CallKind) -> &'static [u8]
    ensures { result.now ≡ call_word kind }
{
    match kind {
        CallKind::Begin => b"begin ",
        CallKind::Other(EventKind::Next) => b"next ",
        CallKind::Other(EventKind::Span) => b"span ",
        CallKind::Other(EventKind::Return) => b"return ",
        CallKind::Other(EventKind::Close) => b"close ",
        CallKind::Other(EventKind::Read) => b"read ",
    }
}

fn put_panel(out: &mut [u8], at: usize, id: u8, away: bool) -> usize
    requires { at + 9 ≤ length out.old }
    ensures { Wrote out.old at (panel_text id away) out.new result }
{
    let end = octets::put_number(out, at, id as usize);
    if away {
        return octets::put(out, end, b" away\n");
    }
    octets::put(out, end, b" here\n")
}

fn put_pattern(out: &mut [u8], at: usize, bits: u32) -> usize
    requires { at + 10 ≤ length out.old }
    ensures { Wrote out.old at (pattern_text bits) out.new result }
{
    let a = octets::put(out, at, b" ");
    let b = octets::put_hex(out, a, bits);
    octets::put(out, b, b"\n")
}

fn put_fresh(out: &mut [u8], at: usize, x: Sample) -> usize
    requires { at + 26 ≤ length out.old }
    ensures { Wrote out.old at (fresh_text x) out.new result }
{
    let bits = pattern_of(x.value);
    let end = lines::put_field(out, at, b"fresh ", x.frame as usize);
    put_pattern(out, end, bits)
}

fn put_reading(out: &mut [u8], at: usize, r: Reading) -> usize
    requires { at + 26 ≤ length out.old }
    ensures { Wrote out.old at (reading_text r) out.new result }
{
    match r {
        Reading::Fresh(x) => put_fresh(out, at, x),
        Reading::Pending => octets::put(out, at, b"pending\n"),
        Reading::Late => octets::put(out, at, b"late\n"),
        Reading::Missing => octets::put(out, at, b"missing\n"),
    }
}

fn put_answer(out: &mut [u8], at: usize, a: Result<Answer, Refusal>) -> usize
    requires { at + refused_room ≤ length out.old }
    ensures { Wrote out.old at (answer_text a) out.new result }
{
    match a {
        Ok(Answer::Done) => octets::put(out, at, b"accepted\n"),
        Ok(Answer::Panel(id, away)) => put_panel(out, at, id, away),
        Ok(Answer::Rest) => octets::put(out, at, b"none\n"),
        Ok(Answer::Read(reading)) => put_reading(out, at, reading),
        Err(refusal) => lines::put_refused(out, at, refusal),
    }
}

// Makes the call of a whole record, and writes its line at the front of `out`: a slice, as every put takes one, so that its length is a clause.
fn show(frame: Frame, kind: CallKind, s: &[u8], out: &mut [u8]) -> Turn
    requires { (record_size kind s.now ≡ length s.now) × (length out.old ≡ line_room) }
    ensures { Shows frame kind s.now out.old result out.new }
{
    let called = frame_log::called(frame, kind, s);
    let at = octets::put(out, 0, word_of(kind));
    let size = put_answer(out, at, called.answer);
    Turn {
        frame: called.frame,
        gone: s.len(),
        size,
    }
}

fn put_stopped(out: &mut [u8], place: usize) -> usize
    requires { length out.old ≡ line_room }
    ensures { Wrote out.old 0 (stopped_line place) out.new result }
{
    let end = lines::put_field(out, 0, b"stopped at ", place);
    octets::put(out, end, b"\n")
}

// One turn at a place of the log, where `s` is what is left of it: the line of its first record, or the line that the run stops there.
fn next_line(frame: Frame, at: usize, s: &[u8], out: &mut [u8]) -> Turn
    requires { length out.old ≡ line_room }
    ensures { TurnAt frame at s.now out.old result out.new }
{
    let Some(Whole { kind, size }) = frame_log::record_at(s) else {
        let line = put_stopped(out, at);
        return Turn {
            frame,
            gone: s.len(),
            size: line,
        };
    };
    show(frame, kind, &s[..size], out)
}

// What a log comes to: the frame's record afterwards, and whether all lines could be written.
#[derive(Drop)]
pub struct Replayed {
    pub frame: Frame,
    pub written: io::Result<()>,
}

// Hands a line out in one piece, unless a line before could not be written: a text with a hole would read as a whole one.
fn hand_out<W: Write>(to: &mut W, written: io::Result<()>, line: &[u8]) -> io::Result<()>
    ensures text { OnOk result (IsOk written × Appends (W.contents to.old) (W.contents to.new) line.now) }
    ensures hole { OnErr written (to.new ≡ to.old) }
{
    written?;
    to.write_all(line)
}

// Makes the calls of a log from idle and writes a line for each, up to a record of unknown kind or with its body cut.
// The calls are made also where a line cannot be written; the only error is that of the first such line.
pub fn replay_to<W: Write>(to: &mut W, log: &[u8]) -> Replayed
    ensures frame { result.frame ≡ replayed log.now }
    ensures text { OnOk result.written (Appends (W.contents to.old) (W.contents to.new) (replay_text log.now)) }
{
    let mut frame = Frame::idle();
    let mut written = Ok(());
    let mut rest = log;
    while !rest.is_empty() {
        let mut line = [0u8; 64];
        let turn = next_line(frame, log.len() - rest.len(), rest, &mut line);
        written = hand_out(to, written, &line[..turn.size]);
        frame = turn.frame;
        rest = &rest[turn.gone..];
    }
    Replayed { frame, written }
}

// The same, to standard output.
pub fn replay(rt: &impl Print, log: &[u8]) -> Replayed
    ensures { result.frame ≡ replayed log.now }
{
    replay_to(&mut io::writer(rt), log)
}
