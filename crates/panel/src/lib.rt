// What C and Rust call: the planners and the plan check with plain numbers for answers (include/zhiblator.h); crate `panel_c` exports it.
// `number` is 0 for an accepted call, else the refusal's number; a field that an answer does not have is 0.
#![tactic(auto)]

ghost use Rattle.std.specs.Prelude.{◌≡◌, unwrap_or};
ghost use Rattle.records.specs.Refusals.{refusal_says, said_by};
ghost use Rattle.planner.specs.Answers.{Planned, Least, FreeAnswer, GivenAnswer, LeastAnswer};
ghost use Rattle.judge.specs.Check.{check_plan};
ghost use Rattle.panel.specs.Numbers.{planned_numbers, least_numbers, checked_numbers};

use judge::Passed;
use planner::Written;
use records::refusal;
use records::refusal::Refusal;

#[repr(C)]
#[derive(Clone, Copy, Default)]
pub struct PlannedNumbers {
    pub number: u64,
    pub place: u64,
    pub length: u64,
    pub busy: u64,
    pub last: u64,
}

#[repr(C)]
#[derive(Clone, Copy, Default)]
pub struct LeastNumbers {
    pub number: u64,
    pub place: u64,
    pub deadline: u64,
}

#[repr(C)]
#[derive(Clone, Copy, Default)]
pub struct CheckedNumbers {
    pub number: u64,
    pub place: u64,
    pub last: u64,
    pub busy: u64,
}

// A refusal's number, and its place or 0.
fn number_and_place(f: Refusal) -> (u64, u64)
    ensures { result ≡ ((said_by (refusal_says f)).number, unwrap_or (said_by (refusal_says f)).place 0) }
{
    let said = refusal::numbers_of(f);
    (said.number as u64, said.place.unwrap_or(0) as u64)
}

impl From<Result<Written, Refusal>> for PlannedNumbers {
    ghost from_gives = { λ answer numbers. numbers ≡ planned_numbers answer };

    fn from(answer: Result<Written, Refusal>) -> PlannedNumbers {
        match answer {
            Ok(plan) => PlannedNumbers {
                length: plan.bytes as u64,
                busy: u64::from(plan.busy),
                last: u64::from(plan.last),
                ..PlannedNumbers::default()
            },
            Err(f) => {
                let (number, place) = number_and_place(f);
                PlannedNumbers {
                    number,
                    place,
                    ..PlannedNumbers::default()
                }
            }
        }
    }
}

impl From<Result<u16, Refusal>> for LeastNumbers {
    ghost from_gives = { λ answer numbers. numbers ≡ least_numbers answer };

    fn from(answer: Result<u16, Refusal>) -> LeastNumbers {
        match answer {
            Ok(d) => LeastNumbers {
                deadline: u64::from(d),
                ..LeastNumbers::default()
            },
            Err(f) => {
                let (number, place) = number_and_place(f);
                LeastNumbers {
                    number,
                    place,
                    ..LeastNumbers::default()
                }
            }
        }
    }
}

impl From<Result<Passed, Refusal>> for CheckedNumbers {
    ghost from_gives = { λ answer numbers. numbers ≡ checked_numbers answer };

    fn from(answer: Result<Passed, Refusal>) -> CheckedNumbers {
        match answer {
            Ok(run) => CheckedNumbers {
                last: u64::from(run.last),
                busy: u64::from(run.busy),
                ..CheckedNumbers::default()
            },
            Err(f) => {
                let (number, place) = number_and_place(f);
                CheckedNumbers {
                    number,
                    place,
                    ..CheckedNumbers::default()
                }
            }
        }
    }
}

pub fn zb_plan_free(table: &[u8], area: &mut [u8]) -> PlannedNumbers
    ensures { (p : Planned) × FreeAnswer table.now area.old p area.new × (result ≡ planned_numbers p) }
{
    PlannedNumbers::from(planner::plan_free(table, area))
}

pub fn zb_plan_given(table: &[u8], area: &mut [u8]) -> PlannedNumbers
    ensures { (p : Planned) × GivenAnswer table.now area.old p area.new × (result ≡ planned_numbers p) }
{
    PlannedNumbers::from(planner::plan_given(table, area))
}

pub fn zb_least_deadline(table: &[u8]) -> LeastNumbers
    ensures { (p : Least) × LeastAnswer table.now p × (result ≡ least_numbers p) }
{
    LeastNumbers::from(planner::least_deadline(table))
}

pub fn zb_check_plan(table: &[u8], plan: &[u8]) -> CheckedNumbers
    ensures { result ≡ checked_numbers (check_plan table.now plan.now) }
{
    CheckedNumbers::from(judge::check_plan(table, plan))
}
