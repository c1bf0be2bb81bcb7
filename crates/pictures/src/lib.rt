// Document 01's known pictures and our own: specs/Pictures.antt says them, proofs/ shows them. No function has a body here.
#![tactic(auto)]
