//! Checks in the order listed: definitions and lemmas that every layer's refusals are stated by. There is no code.
#![tactic(auto)]
