// Theorems about the promises of the crates below, as the checker reads them from their sources: no function stands here.
#![tactic(auto)]
