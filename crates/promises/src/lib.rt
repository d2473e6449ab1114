// Theorems over the definitions: nothing here runs.
#![tactic(auto)]
