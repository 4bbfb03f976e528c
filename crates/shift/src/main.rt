// A shift: a hundred thousand frames of Table E played through the frame runner, on one record from idle, with frame numbers that rise.
// In every 7th frame job 1's answer comes one tick after the deadline, and in the next frame it is offered again under its old number;
// in every 10th frame job 2's answer never comes. Prints what was read, and how many readings were not this frame's own.
#![tactic(auto)]

mod calls; // calls.rt: a frame's calls, settled by its number
mod counts; // counts.rt: what the calls come to, and the report

use calls::events_of;
use counts::Counts;
use frame_record::{Event, Frame};
use std::io;

const FRAMES: u32 = 100000;

const FIRST: u32 = 1000;

// The runner's record, and the counts so far.
#[derive(Drop)]
struct Shift {
    frame: Frame,
    counts: Counts,
}

impl Shift {
    // Begins a frame with Table E and its plan.
    fn begin(&mut self, number: u32) {
        let answer = frame_lent::begin_in(
            &mut self.frame,
            b"\x10\x2D\x00\x12\x01\x1E\x00\x05\x00\x28\x00\x12\x02\x14\x00\x0A\x00\x0A\x00\x11\x03\x19\x00\x1F",
            b"\x21\x01\x21\x02\x20\x03\x2F",
            number,
        );
        self.counts.begun(answer);
    }

    // Makes a frame's calls up to its close.
    fn run(&mut self, number: u32) {
        for event in events_of(number) {
            let answer = frame_lent::call_in(&mut self.frame, event);
            self.counts.called(answer);
        }
    }

    // Reads the three jobs.
    fn read(&mut self, number: u32) {
        for id in 1..=3 {
            let answer = frame_lent::call_in(&mut self.frame, Event::Read(id));
            self.counts.read(answer, number, id);
        }
    }
}

fn main(rt: HostRuntime) -> io::Result<()> {
    let mut shift = Shift {
        frame: Frame::idle(),
        counts: Counts::default(),
    };
    for number in FIRST..FIRST + FRAMES {
        shift.begin(number);
        shift.run(number);
        shift.read(number);
    }
    rt.print(shift.counts)
}
