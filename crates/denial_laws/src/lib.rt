//! What a validator concludes from the negative answers of a zone: the judgement of `denial_validation`, which has no zone,
//! compared with what a lookup in a zone answers.
#![tactic(auto)]

pub mod laws;
