//! Laws of histories and of steps. The functions that carry them have no work to do.
pub mod funded_laws;
pub mod history_laws;
pub mod step_laws;
