// The planners, asked over bytes in an area that is longer than a plan needs. Of a refusal it is the numbers that count.
ghost use Rattle.std.specs.Prelude.{◌≡◌};
ghost use Rattle.trial.specs.Said.{by_numbers};

use crate::answers::Answer;
use crate::bytes;
use planner::Written;
use records::refusal::{Refusal, Said, numbers_of};

// What an answer says: a refusal's numbers in its place.
fn said<T: Drop>(answer: Result<T, Refusal>) -> Result<T, Said>
    ensures { result ≡ by_numbers answer }
{
    answer.map_err(numbers_of)
}

// What a planner answers to a table, with the area as it leaves it.
pub fn plan<F: FnOnce(&[u8], &mut [u8]) -> Result<Written, Refusal>>(
    planner: F,
    table: &[u8],
) -> Answer
    requires { F.IsAlwaysCallable planner }
{
    let mut area = bytes::UNTOUCHED;
    let plan = said(planner(table, &mut area));
    Answer { plan, area }
}

// The least deadline.
pub fn least_deadline(table: &[u8]) -> Result<u16, Said> {
    said(planner::least_deadline(table))
}
