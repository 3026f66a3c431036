#![tactic(auto)]
// The theory of minimal models: definitions in specs/, laws in proofs/, and no code.
//
// Over any representation of sets of atoms and of clauses (specs/Language.antt) it says when a set breaks a clause, what a model and a
// minimal model are, in which order the minimal models are listed, and what the list of explanations is (specs/Models.antt).
