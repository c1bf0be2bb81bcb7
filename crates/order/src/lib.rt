// Calls in any order: specs/Theorem.antt says what is promised, proofs/Theorem.antt has the theorem, the other files of specs/ lead to it. No function has a body here.
#![tactic(auto)]
