// The customer's demand 3, the proved table, and a reading's way from the logger to the screen: theorems, and no code of their own. `runs::step`
// ties the runs of demand 3 to the code.
#![tactic(auto)]
