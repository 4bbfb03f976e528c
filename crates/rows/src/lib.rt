// The planner's work rows: document 01's recurrence (4), (5) over two local arrays, one column for each setup total.
// `least` gives the least busy total over all columns, and the mask of the choice that has it.
#![tactic(auto)]

ghost use Rattle.std.specs.Prelude.{◌≡◌, List, reverse, suc, ◌+◌, ◌*◌, ◌≤◌, ◌<◌, length};
ghost use Rattle.model.specs.Recurrence.{Holds, best_below};
ghost use Rattle.model.specs.Timetable.{setup_time, return_time};
ghost use Rattle.records.specs.Limits.{most_jobs, largest_time};
ghost use Rattle.rows.specs.Rows.{columns, nothing, WithinRows};
ghost use Rattle.rows.specs.Columns.{Fit, Raised, Sent, RoomFor, Stepped, Rows, lower, Single};

use model::Job;

// One column for each tick from 0 to the largest time. The clauses below say the length once more, to the lemmas on lists that they are handed to.
const COLUMNS: usize = 4001;

// A total of so much or more stands for nothing: no choice of the jobs so far has this setup total.
// It is a number and no Option, so that keeping a job here is a plain addition in every column.
const NOTHING: u32 = 4_000_000;

// A choice's total, and its mask: bit j says that the j-th job in away order is away. The lower total is the less, at equal totals the smaller mask.
#[derive(Clone, Copy, PartialEq, Eq, PartialOrd, Ord)]
pub struct Lowest {
    pub total: u32,
    pub mask: u32,
}

// The columns setup..end at which a job can be sent away; 0..0 where there is none, so that the passes run over it without a test.
#[derive(Clone, Copy)]
struct Room {
    setup: usize,
    end: usize,
}

// The columns t with setup <= t and t + return <= d. A here-only job's times read as 0, as in the definitions; the planner gives none.
fn room_for(d: usize, job: Job) -> Room
    requires { d ≤ largest_time }
    ensures { RoomFor d (setup_time job) (return_time job) result.setup result.end }
{
    let setup = job.setup_time() as usize;
    let back = job.return_time() as usize;
    if setup + back <= d {
        Room {
            setup,
            end: d + 1 - back,
        }
    } else {
        Room { setup: 0, end: 0 }
    }
}

// What goes with the lower of two totals: with the sent one only where it is lower. It stores nothing, so that `send` compiles without branches.
fn lower_of(kept: u32, sent: u32, of_kept: u32, of_sent: u32) -> u32
    ensures { result ≡ lower kept sent of_kept of_sent }
{
    if sent < kept { of_sent } else { of_kept }
}

// Each total of the columns from..to grows by so much.
fn raise(totals: &mut [u32; COLUMNS], from: usize, to: usize, by: u32)
    requires { (length totals.old ≡ columns) × (from ≤ to) × (to ≤ columns) × Fit to by totals.old }
    ensures { Raised from to by totals.old totals.new }
{
    for t in from..to {
        totals[t] += by;
    }
}

// Each column of the room keeps the job here, or takes the column a setup time earlier with the job's bit, where that total is lower.
// It goes from the highest down, so that the earlier column is still the one before this job. Totals and masks are two parameters: as fields of one
// struct the compiler does not know them apart, and the pass takes more than twice as long.
fn send(totals: &mut [u32; COLUMNS], masks: &mut [u32; COLUMNS], room: Room, local: u32, bit: u32)
    requires { (length totals.old ≡ columns) × (length masks.old ≡ columns) × (room.setup ≤ room.end) × (room.end ≤ columns)
        × Fit room.end local totals.old × Fit room.end bit masks.old }
    ensures { Sent room.setup room.end room.setup local bit totals.old masks.old totals.new masks.new }
{
    for t in (room.setup..room.end).rev() {
        let kept = totals[t] + local;
        let sent = totals[t - room.setup];
        totals[t] = lower_of(kept, sent, kept, sent);
        masks[t] = lower_of(kept, sent, masks[t], masks[t - room.setup] + bit);
    }
}

// One job more, in the columns 0..=d: kept here where it cannot be sent away, else kept or sent, whichever has the lower total.
fn add_job(totals: &mut [u32; COLUMNS], masks: &mut [u32; COLUMNS], d: usize, job: Job, bit: u32)
    requires { (length totals.old ≡ columns) × (length masks.old ≡ columns) × (d ≤ largest_time)
        × Fit (d + 1) job.local totals.old × Fit (d + 1) bit masks.old }
    ensures { Stepped d job bit totals.old masks.old totals.new masks.new }
{
    let local = job.local as u32;
    let room = room_for(d, job);
    raise(totals, room.end, d + 1, local);
    send(totals, masks, room, local, bit);
    raise(totals, 0, room.setup, local);
}

// The best of all columns 0..=d, each with its setup total and `base` added.
fn best(totals: &[u32; COLUMNS], masks: &[u32; COLUMNS], d: usize, base: u32) -> Lowest
    requires { (length totals.now ≡ columns) × (length masks.now ≡ columns) × (d ≤ largest_time)
        × (base ≤ most_jobs * largest_time) × Fit (d + 1) (largest_time + base) totals.now }
    ensures { Single result × ((os : List Job) → Rows d os totals.now masks.now → length os ≤ most_jobs
        → Holds nothing result.total result.mask (best_below d os base (suc d))) }
{
    let mut found = Lowest {
        total: NOTHING,
        mask: 0,
    };
    for t in 0..d + 1 {
        let next = Lowest {
            total: totals[t] + t as u32 + base,
            mask: masks[t],
        };
        // Few columns pass this test, and it costs less than the order of two choices.
        if next.total <= found.total {
            found = found.min(next);
        }
    }
    found
}

// The least (busy total, mask) over all setup totals 0..=d of the jobs in away order, `base` being what stays here in any case.
pub fn least(d: usize, base: u32, jobs: &[Job]) -> Lowest
    requires { WithinRows d base jobs.now }
    ensures { Single result × Holds nothing result.total result.mask (best_below d (reverse jobs.now) base (suc d)) }
{
    let mut totals = [0u32; COLUMNS];
    let mut masks = [0u32; COLUMNS];
    // Before the first job only column 0 is reached. Columns above d are never read, so they need no mark.
    raise(&mut totals, 1, d + 1, NOTHING);
    for (k, job) in jobs.iter().enumerate() {
        add_job(&mut totals, &mut masks, d, *job, 1 << k);
    }
    best(&totals, &masks, d, base)
}
