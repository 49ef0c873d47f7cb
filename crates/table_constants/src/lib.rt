//! Lemmas without code: constants that pass some computed tests are the tables that the bytes of property files state.
#![tactic(auto)]
