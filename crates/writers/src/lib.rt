// The theorem of two writers on one card: the table calls cannot tell their tiles apart. Definitions and theorems alone, no function.
#![tactic(auto)]
