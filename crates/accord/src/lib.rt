// The planners by their own contracts (specs/Exact.antt): what they say exactly when, and that what they write is least of all timetables;
// and that planners, check and lister agree. There is no code here.
#![tactic(auto)]
