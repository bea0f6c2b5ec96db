// Work done in stages of stores, and what a budget of stores leaves of it: definitions and laws, no function.
#![tactic(auto)]
