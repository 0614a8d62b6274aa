//! Laws of parsers that look at one token (predictive parsing): what their answers say of the trees of the grammar.
#![tactic(auto)]
