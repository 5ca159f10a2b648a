// What edits do to a table, runs of calls over a store with the record of changes, and the law over all runs.
#![tactic(auto)]
