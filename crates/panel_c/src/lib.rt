// The archive that C and Rust link (include/zhiblator.h): each symbol is the function of crate `panel` with its name, under the same clauses.
#![tactic(auto)]

ghost use Rattle.std.specs.Prelude.{◌≡◌};
ghost use Rattle.planner.specs.Answers.{Planned, Least, FreeAnswer, GivenAnswer, LeastAnswer};
ghost use Rattle.judge.specs.Check.{check_plan};
ghost use Rattle.panel.specs.Numbers.{planned_numbers, least_numbers, checked_numbers};

use panel::{CheckedNumbers, LeastNumbers, PlannedNumbers};

#[unsafe(no_mangle)]
pub extern "C" fn zb_plan_free(table: &[u8], area: &mut [u8]) -> PlannedNumbers
    ensures { (p : Planned) × FreeAnswer table.now area.old p area.new × (result ≡ planned_numbers p) }
{
    panel::zb_plan_free(table, area)
}

#[unsafe(no_mangle)]
pub extern "C" fn zb_plan_given(table: &[u8], area: &mut [u8]) -> PlannedNumbers
    ensures { (p : Planned) × GivenAnswer table.now area.old p area.new × (result ≡ planned_numbers p) }
{
    panel::zb_plan_given(table, area)
}

#[unsafe(no_mangle)]
pub extern "C" fn zb_least_deadline(table: &[u8]) -> LeastNumbers
    ensures { (p : Least) × LeastAnswer table.now p × (result ≡ least_numbers p) }
{
    panel::zb_least_deadline(table)
}

#[unsafe(no_mangle)]
pub extern "C" fn zb_check_plan(table: &[u8], plan: &[u8]) -> CheckedNumbers
    ensures { result ≡ checked_numbers (check_plan table.now plan.now) }
{
    panel::zb_check_plan(table, plan)
}
