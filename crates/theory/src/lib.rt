// The definitions of draws and the theory of popping: specs/ and proofs/ have it all, and there is no code.

#![tactic(auto)]
