//! Formulas and the grammar of their texts: definitions and laws, and no code.
#![tactic(auto)]
