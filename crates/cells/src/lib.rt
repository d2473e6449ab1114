// Whether cells are a configuration of a model.
#![tactic(auto)]
