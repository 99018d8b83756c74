//! Programs: calls, and the acts that they are made of.
pub mod act;
pub mod call;
pub mod statement;
