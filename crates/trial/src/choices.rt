// A choice: the set of the jobs that are sent away, by their places in the table. Bit k stands for the job at place k.
#[derive(Clone, Copy, PartialEq, Eq)]
pub struct Choice(u8);

impl Choice {
    // How many choices six jobs have.
    pub const COUNT: usize = 64;

    // The choice whose bits are those of the number.
    pub fn numbered(number: u8) -> Choice {
        Choice(number)
    }

    // Whether no job is sent away.
    pub fn is_empty(self) -> bool {
        self.0 == 0
    }

    // Whether the job at a place is sent away.
    pub fn has(self, place: usize) -> bool {
        place < 8 && (self.0 >> place) % 2 == 1
    }

    // Whether each job that is sent away is so in the other choice too.
    pub fn is_within(self, other: Choice) -> bool {
        self.0 & other.0 == self.0
    }
}
