// The marked cases of document 01, one statement over one list (specs/Marked.antt, proofs/Marked.antt), and what follows from them: that no
// function that meets its contract is one of the empty versions, or makes an error that looks right (specs/Versions.antt). There is no code here.
#![tactic(auto)]
