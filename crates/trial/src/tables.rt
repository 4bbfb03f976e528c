// The tables of the trial, settled by their numbers: small times and zeros, one return shared by all, the same gain for all, here-only and either jobs mixed,
// and some times up to 4,000. The deadline is set at or near the least one that can be met, which the caller brings.
ghost use Rattle.std.specs.Prelude.{◌≡◌, ◌<◌, ◌≤◌, min};
ghost use Rattle.records.specs.Limits.{largest_time};

use crate::choices::Choice;
use crate::jobs::{Away, Job, Jobs};
use std::array;
use table::Table;

// The largest times that the jobs of a table are drawn from, and a set of jobs that are either jobs; of the others half are.
#[derive(Clone, Copy)]
struct Style {
    local: u16,
    setup: u16,
    back: u16,
    either: u8,
    // All jobs share one return.
    one_return: bool,
    // C is S and a gain that all jobs share, so that the busy total only tells how many are away.
    one_gain: bool,
}

// What a number is drawn for.
#[derive(Clone, Copy)]
enum Purpose {
    Local,
    Setup,
    Return,
    Either,
    Size,
    Edge,
    Deadline,
}

// The numbers that are drawn for the table with a number.
#[derive(Clone, Copy)]
struct Draws {
    table: u64,
}

// The next number of a fixed sequence that looks random.
fn stepped(seed: u64) -> u64
    ensures { result < 2147483648 }
{
    (seed % 2147483648 * 1103515245 + 12345) % 2147483648
}

impl Draws {
    // A number from 0 to `most` for the job at a place.
    fn at(self, place: u64, purpose: Purpose, most: u16) -> u16
        ensures { result ≤ most }
    {
        let seed = stepped(self.table % 100000 * 100 + place % 10 * 10 + purpose as u64);
        let number = stepped(seed ^ (seed >> 15));
        ((number >> 9) % (u64::from(most) + 1)) as u16
    }

    // A number from 0 to `most` for the table, at a place behind the jobs.
    fn shared(self, purpose: Purpose, most: u16) -> u16
        ensures { result ≤ most }
    {
        self.at(8, purpose, most)
    }

    // A number from 0 to `most` for the job at a place by itself; or one that all jobs of the table share.
    fn time(self, place: u64, shared: bool, purpose: Purpose, most: u16) -> u16
        ensures { result ≤ most }
    {
        if shared {
            self.shared(purpose, most)
        } else {
            self.at(place, purpose, most)
        }
    }
}

// The time, or the largest time where it is above that.
fn capped(time: u32) -> u16
    ensures { result ≡ min time largest_time }
{
    time.min(u32::from(Table::LARGEST_TIME)) as u16
}

// 0 to 6 jobs, 4 to 6 twice as often as fewer.
fn size_of(draws: Draws) -> usize
    ensures { result ≤ 6 }
{
    let n = usize::from(draws.shared(Purpose::Size, 9));
    if n <= 6 { n } else { n - 3 }
}

// Times up to these, with a set of either jobs.
fn up_to(local: u16, setup: u16, back: u16, either: u8) -> Style {
    Style {
        local,
        setup,
        back,
        either,
        one_return: false,
        one_gain: false,
    }
}

// The first three kinds have times in common, the next has many zeros, then come one in which half the jobs are here-only, and one that
// often has no deadline.
fn style_of(table: u64) -> Style {
    match table % 8 {
        0 => Style {
            one_return: true,
            ..up_to(12, 6, 9, 63)
        },
        1 => Style {
            one_return: true,
            one_gain: true,
            ..up_to(5, 5, 9, 0b010101)
        },
        2 => Style {
            one_gain: true,
            ..up_to(5, 6, 12, 63)
        },
        3 => up_to(3, 3, 4, 63),
        4 => up_to(20, 8, 30, 0),
        5 => up_to(4000, 1500, 3000, 0b101010),
        _ => up_to(30, 10, 40, 0b010101),
    }
}

// The job at a place.
fn job_of(draws: Draws, place: u64, style: Style, either: bool) -> Job {
    let setup = draws.at(place, Purpose::Setup, style.setup);
    let gain = draws.time(place, style.one_gain, Purpose::Local, style.local);
    let back = draws.time(place, style.one_return, Purpose::Return, style.back);
    Job {
        // 37 apart, so that no two jobs share one.
        id: ((draws.table % 256 + 37 * (place % 8)) % 256) as u8,
        local: if style.one_gain {
            capped(u32::from(setup) + u32::from(gain))
        } else {
            gain
        },
        away: either.then_some(Away { setup, back }),
    }
}

// The jobs of the table with this number.
pub fn jobs_of(table: u64) -> Jobs {
    let draws = Draws { table };
    let style = style_of(table);
    let either = Choice::numbered(draws.shared(Purpose::Either, 63) as u8 | style.either);
    let list = array::from_fn(|place| job_of(draws, place as u64, style, either.has(place)));
    Jobs::first(list, size_of(draws))
}

// The table's own deadline, from 1 to 4,000: one below the least, at it or one above it; or anywhere up to twice as far.
pub fn deadline_of(table: u64, least: Option<u32>) -> u16
    ensures { (1 ≤ result) × (result ≤ largest_time) }
{
    let draws = Draws { table };
    let edge = draws.shared(Purpose::Edge, 3);
    let about = u32::from(least.map_or(Table::LARGEST_TIME, capped));
    let above = if edge == 3 {
        u32::from(draws.shared(Purpose::Deadline, capped(2 * about)))
    } else {
        about + u32::from(edge)
    };
    capped(above.max(2) - 1)
}
