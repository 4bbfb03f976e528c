// The records of tables and plans: what their kind bytes mean, and what is refused of them, by number and place.
// A file is a list of records (specs/Records.antt); tables and plans differ in their records only.
#![tactic(auto)]

pub mod refusal; // refusal.rt: the eighteen refusals and their places
pub mod kind; // kind.rt: what a kind byte means, and which kinds may stand where
pub mod record; // record.rt: a record's head, and the end of a file
