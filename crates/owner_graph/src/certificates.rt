//! Checks of the certificates that searches find.
pub(crate) mod knots;
pub(crate) mod one_knot;
