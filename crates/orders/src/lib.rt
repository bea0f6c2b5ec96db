// Orders of axes, chains of swaps and plans: definitions and laws, no function.
#![tactic(auto)]
