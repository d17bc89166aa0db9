// The ported calls for C and for whatever links as C does: include/card.h has their prototypes. Numbers, slices and #[repr(C)] structs cross, and a slice
// crosses as a pointer and a length. Each export is one proved call and the way its answer is told to C; gpt_entry_from_bytes and the calls that fill lent bytes with rows are made of leaves.
#![tactic(auto)]

mod building; // building.rt: the header builder
mod by_uefi; // by_uefi.rt: the second reading edition
mod entries; // entries.rt: partition entries
mod headers; // headers.rt: headers and the check sum
mod mbrs; // mbrs.rt: the protective MBR
mod stored; // stored.rt: how many bytes a call stored
