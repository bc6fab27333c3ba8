//! Lemmas of tables: where blocks find places, which parts objects are made of, and what marking leaves in place.
//! Other laws and the proofs of code use them. They speak of the machine of the model, and not yet of code.
#![tactic(auto)]
