// The theorem of head and tail: a call on two windows answers as on the whole image, and leaves them as its blocks, whatever the middle holds. Document 02, 10/13.
// There is no code here: specs/Calls has the calls on windows as values, and proofs/AsImage the theorem over all of them.
#![tactic(auto)]
