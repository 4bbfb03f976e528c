// What the frame runner promises of every sequence of calls from idle, told of the calls and their answers: document 01, 'The frame runner'.
// The words stand in specs/, the theorems in proofs/; there is no code.
#![tactic(auto)]
