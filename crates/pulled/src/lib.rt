// Theorems alone: what a reader sees of a card that was pulled between the stages of an update or of a repair.
#![tactic(auto)]
