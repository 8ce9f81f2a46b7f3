// Log K's commitment by computation (proofs/Commitment.antt). It stands apart from `model`, since it takes longer to check than all of
// that crate, and would be paid again by each of its must-fail edits.
#![tactic(auto)]
