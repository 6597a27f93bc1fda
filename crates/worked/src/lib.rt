// Document 01's worked runs: specs/ has them as rows of one table, proofs/ the claim about it. Nothing runs here.
#![tactic(auto)]
