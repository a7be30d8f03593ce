// The theorems over the definitions.
#![tactic(auto)]
