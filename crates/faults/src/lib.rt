// Which byte strings are refused, with which number and at which place (specs/Faults.antt), and what a table and a plan come to (specs/Checks.antt),
// told with neither reader nor check; proofs/Says.antt holds the readers' and the check's own contracts to it. There is no code here.
#![tactic(auto)]
