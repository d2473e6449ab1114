// A runner's session: choices from bytes, and the bytes that it writes.
#![tactic(auto)]
