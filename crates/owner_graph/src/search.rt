//! Searches for knots, for what ends, and for cuts. Nothing is proved of them: what they find is a
//! certificate, which is checked.
pub(crate) mod backs;
pub(crate) mod components;
pub(crate) mod crossings;
pub(crate) mod detours;
pub(crate) mod edge_index;
pub(crate) mod knot_rings;
pub(crate) mod layers;
pub(crate) mod order;
pub(crate) mod places;
pub(crate) mod ring;
pub(crate) mod stage_order;
pub(crate) mod walk;
