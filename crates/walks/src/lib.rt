// Lines walked without a division: definitions and laws, no function.
#![tactic(auto)]
