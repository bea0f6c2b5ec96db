// Lines of text, printed and read: definitions and laws, no function.
#![tactic(auto)]
