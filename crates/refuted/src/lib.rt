#![tactic(auto)]

// No code: the bench rows, and the wrong stores that the promise refutes.
