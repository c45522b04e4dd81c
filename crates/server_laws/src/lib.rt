//! Laws of the messages with which a server of zones answers, built on everything that is proved of their parts: what is
//! written reads back as what a zone says, and proves it. It has no calls, and no program depends on it.
#![tactic(auto)]

pub mod laws;
