// The two orders in which plans are made. What a planner finds in its order, and that this is the plan that it has to write, is the trait's law;
// what is made of it (crate planner, `plan_read`) is told once for both.
ghost use Rattle.std.specs.Prelude.{◌≡◌, List, Option};
ghost use Rattle.model.specs.Timetable.{Chosen, Timetable};
ghost use Rattle.model.specs.GivenOrder.{InOrder};
ghost use Rattle.table.specs.Tables.{JobTable, Sound, job_table};
ghost use Rattle.draft.specs.Drafts.{drafted_of};
ghost use Rattle.planner.specs.Answers.{Possible, FreePlan, GivenPlan};
ghost use Rattle.planner.specs.Orders.{Finds, free_of, given_of, free_finds, given_finds};

use draft::Draft;
use table::Table;

pub trait Order {
    // Some timetable of its kind is on time.
    ghost can_meet: { JobTable → Type 0 };
    // This is the plan that it has to write.
    ghost is_plan: { JobTable → List Chosen → Type 0 };
    // What it finds, in plan order.
    ghost found: { JobTable → Option (List Chosen) };

    fn plan(t: &Table) -> Option<Draft>
        requires { Sound t.now }
        ensures { result ≡ drafted_of (found (job_table t.now)) };

    ghost finds: { Finds can_meet is_plan found };
}

// The away jobs by falling return time, then the jobs that stay.
pub struct FreeOrder;

impl Order for FreeOrder {
    ghost can_meet = { Possible Timetable };

    ghost is_plan = { FreePlan };

    ghost found = { free_of };

    ghost finds = { free_finds };

    fn plan(t: &Table) -> Option<Draft> {
        free::free_plan(t)
    }
}

// The jobs in table order.
pub struct GivenOrder;

impl Order for GivenOrder {
    ghost can_meet = { Possible InOrder };

    ghost is_plan = { GivenPlan };

    ghost found = { given_of };

    ghost finds = { given_finds };

    fn plan(t: &Table) -> Option<Draft> {
        given::given_plan(t)
    }
}
