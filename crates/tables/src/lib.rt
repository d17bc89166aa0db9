// The two tables of a card: where they stand, what their headers and entries are, and what the card check asks of them (specs/).
// What each call makes of them is in `card` and `listing`, what holds after any calls in `history`.
// `inner` has the leaves that the card's calls share. No public calls.
#![tactic(auto)]

pub mod inner; // inner.rt: places, headers and sums
