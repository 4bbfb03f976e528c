// What a planner is to answer, from the search: the bytes of the best choice's plan, and its two numbers.
// Answers are compared in full: the numbers, and every byte of the area.

use crate::bytes;
use crate::search::Best;
use planner::Written;
use records::refusal::Said;

// What NONE says, by the number that the rules give it: written here, so that a planner that says another number shows.
pub const NONE: Said = Said {
    number: 7,
    place: None,
};

// A plan; or what a refusal says, with the area as it was lent.
#[derive(Clone, Copy, PartialEq, Eq)]
pub struct Answer {
    pub plan: Result<Written, Said>,
    pub area: [u8; bytes::AREA],
}

impl Answer {
    // A table that no timetable meets.
    pub const NONE: Answer = Answer {
        plan: Err(NONE),
        area: bytes::UNTOUCHED,
    };

    // The answer that goes with the best choice, if there is one.
    pub fn expected(best: Option<Best>) -> Answer {
        best.map_or(Answer::NONE, |best| {
            let listed = best.tried.listed;
            let written = bytes::plan_bytes(&listed);
            let area = written.list;
            Answer {
                plan: Ok(Written {
                    bytes: written.count,
                    busy: best.tried.busy,
                    last: listed.last_finish(),
                }),
                area,
            }
        })
    }
}
