//! What histories and views are made of. Values of these types live in proofs alone.
pub mod event;
pub mod handle;
pub mod view;
