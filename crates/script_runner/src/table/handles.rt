//! Handles that come into slots, and those that leave them.
mod copies;
mod empties;
mod locks;
mod makes;
mod moves;
mod this;
