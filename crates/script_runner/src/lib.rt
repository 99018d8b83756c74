//! Scripts on real workers.
#![tactic(auto)]

mod acts;
mod gate;
mod laws;
mod reports;
mod runs;
mod table;
mod workers;

pub use gate::{Gate, Open};
pub use laws::{desk_calls, table_calls, team_laws, worker_logs};
pub use reports::delivery::run_text;
pub use reports::report::Report;
pub use runs::run_script;
