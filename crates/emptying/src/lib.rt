// The ledger, lists of events and the emptying theorem stand in specs/ and proofs/; nothing runs here.
#![tactic(auto)]
