// Lists, counts and tests: the general definitions that the rules and the mesh files are written with, and their laws. There is no code here, and
// nothing of document 01: an edit of the rules leaves this crate, and all that stands on it alone, as it is.
#![tactic(auto)]
