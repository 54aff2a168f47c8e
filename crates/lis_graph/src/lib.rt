//! Chains of links over any points, and names that come again: definitions and laws, and no code.
#![tactic(auto)]
