// The public entries: judge a text, start it, one step, a run, a drive.
#![tactic(auto)]
