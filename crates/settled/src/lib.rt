// Every public function's contract allows one outcome only (proofs/Functions.antt): the answer, with what it leaves in lent memory. Whether the replay
// could write its lines, and what crate `input` reads, is not theirs to settle. There is no code here.
#![tactic(auto)]
