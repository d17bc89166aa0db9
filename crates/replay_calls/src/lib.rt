// What a replay of recorded answers stands on: the tape's kinds and arguments, and each call of the library made from them, its answer told as the tape has it.
// README.md of `replay` has the tape's format.
#![tactic(auto)]

pub mod answers; // answers.rt: from a kind to its call
pub mod entries; // entries.rt: the calls of entries
pub mod headers; // headers.rt: the calls of headers and of the builder
pub mod kinds; // kinds.rt: the kinds of steps
pub mod mbrs; // mbrs.rt: the calls of the MBR
pub mod tape; // tape.rt: the tape
pub mod told; // told.rt: answers as the tape has them
