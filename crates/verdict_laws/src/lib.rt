//! What the verdict of a text of a tree means: laws, each the contract of a function without a body that computes.
//!
//! `tree_checker` defines the verdict of a text as what reading it line by line comes to. The laws say what that is, by
//! the text alone: a text is accepted exactly where it is the text of a feasible purchase, or of none, and of a tree
//! that is valid for the root. So a yes needs no trust in who wrote the text: the purchase in it is least, over all
//! matrices of whole numbers, or no purchase is feasible. An accepted text has no part too many and none too few.
#![tactic(auto)]

pub mod laws;
