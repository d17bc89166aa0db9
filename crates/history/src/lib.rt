// Theorems alone: what holds of a card after a lay and any list of puts, clears and payload writes. The statement is specs/History, demand 3 is proofs/Demand.
#![tactic(auto)]
