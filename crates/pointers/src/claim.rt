//! Claims on objects: handles, each with what is known of it.
use crate::domain::Domain;
use crate::known::Known;
use ghost_map::GhostMap;

mod members;
pub(crate) mod shared_claim;
pub(crate) mod weak_claim;

/// What is known of all handles that a desk gave out.
pub(crate) type Claims<D> = GhostMap<D, Known<<D as Domain>::Value>>;
