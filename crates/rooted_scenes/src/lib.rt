//! Scenes for tests: a store and a trail on which each implied literal has its reason.
//!
//! What an analysis asks of a trail is proved once here: a scene is built step by step, and each step looks at run time whether it may be
//! taken. So a test says in a few lines which clauses there are and what was decided, and its own proof is short.
#![tactic(auto)]

pub mod scene;
