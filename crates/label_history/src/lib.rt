// Theorems alone: label writes among the calls of a card's history, what was written reads back, and what an accepted judgement after any history tells. The statements are specs/Events.
#![tactic(auto)]
