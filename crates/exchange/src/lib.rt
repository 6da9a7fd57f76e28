// Runs of a master and its stations, with requests and replies lost. No code: the definitions are in specs/, the theorems
// in proofs/, both over the contracts of `master` and `station`.
#![tactic(auto)]
