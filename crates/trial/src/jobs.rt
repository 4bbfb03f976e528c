// The jobs of a table, up to six of them, in types of the trial's own: it takes none from what it judges.
use crate::row::Row;

pub const MOST_JOBS: usize = 6;

// The setup time S and the return time I of a job that is sent away.
#[derive(Clone, Copy)]
pub struct Away {
    pub setup: u16,
    pub back: u16,
}

// A job with its local time C; `away` is nothing where it may not leave the panel.
#[derive(Clone, Copy)]
pub struct Job {
    pub id: u8,
    pub local: u16,
    pub away: Option<Away>,
}

// In table order.
pub type Jobs = Row<Job, MOST_JOBS>;
