// Definitions and theorems alone: the file of a problem, and that the reader takes exactly such files.
#![tactic(auto)]
