// Two used slots with one partition GUID: whether an array has such, and the lowest slot that has a GUID. What is asked is in tables/specs/Entries.
// `inner` has the leaves, for the card check and for put. No public calls.
#![tactic(auto)]

pub mod inner; // inner.rt: an array passed through once, by a set of numbers
