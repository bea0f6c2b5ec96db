// The flat turn and its passes: definitions and laws, no function.
#![tactic(auto)]
