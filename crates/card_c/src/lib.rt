// The card calls for C and for whatever links as C does: include/card.h has their prototypes. Numbers, slices and #[repr(C)] structs cross, and a slice
// crosses as a pointer and a length. Each export is one proved call and the way its answer is told to C; the calls that fill lent bytes with rows are made of leaves.
// The ported calls are exported by gpt_c, and the text calls by text_c.
#![tactic(auto)]

mod answers; // answers.rt: the structs that come back, and how each answer becomes one
mod by_windows; // by_windows.rt: the card calls on two windows, the free ground, the slot map and the place of a payload
mod cards; // cards.rt: the card calls
mod grounds; // grounds.rt: the free ground
mod labels; // labels.rt: the labels of maps
mod maps; // maps.rt: the slot map
mod pulled; // pulled.rt: the reader of a pulled card, and put, clear and repair in stages
mod pulled_windows; // pulled_windows.rt: the reader and the stages on two windows
