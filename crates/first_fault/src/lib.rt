//! The theory of exact readers: a reader of tokens answers what a rule spells, and else stops at the first token
//! that no text of the rule has there, or at the first one that is nested too deep. It speaks of no particular
//! language. The definitions are in `specs/`, the lemmas that put exact readers together in `proofs/`.
#![tactic(auto)]
