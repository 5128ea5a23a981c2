// A board is alien exactly if decides and undos cannot produce it. There is no code here.
#![tactic(auto)]
