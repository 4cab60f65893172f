//! Rules as plans: what a rule asks of a form, part by part, and what it says itself. The phases that refuse a tree at its
//! first failing place stand on it. The definitions are in `specs/` and the laws in `proofs/`, for failures of any type.
//! Takes a plan; gives what it tells: the one result that has a derivation, or the first failure.
//! Contract: each plan has a derivation or a first failure (`decides`), at most one of either (`one_result`,
//! `one_failure`), and never both (`fails_alone`).
//! Seen by `eql_naming` and `type_rules`.
#![tactic(auto)]
