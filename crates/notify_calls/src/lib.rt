//! NOTIFY for a program that isn't written in Rattle (RFC 1996): the octets that tell a secondary of a zone that it has changed, and what a
//! secondary answers. When one is sent again that has no response is up to the program, which has the sockets and the clock.
#![tactic(auto)]

pub mod calls;
