// What reading leaves in the lent tables, over the definitions of `format`: laws, in `proofs/`. There is no code here.
#![tactic(auto)]
