// Bytes in flight, over any calls. Nothing to run: what is said stands in specs/, its proof in proofs/.

#![tactic(auto)]
