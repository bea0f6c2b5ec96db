// Definitions and laws of lists: no function stands here.
#![tactic(auto)]
