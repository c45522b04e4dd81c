//! What a whole response proves to whoever asked: the responses of `zone_response`, compared with the judgement of
//! `denial_validation`, which has no zone.
#![tactic(auto)]

pub mod laws;
