// A frame's calls after its begin, settled by its number, and the values that come with them.

use frame_record::{Event, Sample};

// A job's value in a frame: no other job has it, nor the same job in another frame.
fn value_of(number: u32, id: u8) -> f32 {
    (4 * (number % 1000000) + id as u32) as f32
}

// Whether a value that was read is this job's, of this frame.
pub fn is_own(sample: Sample, number: u32, id: u8) -> bool {
    sample.frame == number && sample.value == value_of(number, id)
}

// When job 1's answer comes: in time, or one tick after the deadline.
fn return_time(number: u32) -> u16 {
    if number % 7 == 0 { 46 } else { 45 }
}

// The old answer, where the frame before had it late; else the panel asks which job is next.
fn old_answer(number: u32) -> Event {
    if number % 7 == 1 {
        return Event::Return {
            number: number - 1,
            id: 1,
            time: 6,
            value: value_of(number - 1, 1),
        };
    }
    Event::Next
}

// Job 2's answer, where it comes.
fn second_answer(number: u32) -> Event {
    if number % 10 == 3 {
        return Event::Next;
    }
    Event::Return {
        number,
        id: 2,
        time: 25,
        value: value_of(number, 2),
    }
}

// The span of a job that is sent away ends; its value comes later.
fn sent(id: u8, time: u16) -> Event {
    Event::SpanEnd {
        id,
        time,
        value: 0.0,
    }
}

// A frame's calls: spans and returns as the plan has them, and the close.
pub fn events_of(number: u32) -> [Event; 7] {
    [
        sent(1, 5),
        old_answer(number),
        sent(2, 15),
        second_answer(number),
        Event::SpanEnd {
            id: 3,
            time: 40,
            value: value_of(number, 3),
        },
        Event::Return {
            number,
            id: 1,
            time: return_time(number),
            value: value_of(number, 1),
        },
        Event::Close(46),
    ]
}
