// The layout of a block over any number of axes: definitions and laws, no function.
#![tactic(auto)]
