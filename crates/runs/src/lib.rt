// No function: runs of controllers over the calls, and demand 3 of them.
#![tactic(auto)]
