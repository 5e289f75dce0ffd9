// No code: laws of both walks on tags: pairs and loners as a tally, the second walk, and where it is skipped.
#![tactic(auto)]
