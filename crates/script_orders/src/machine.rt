//! A machine of the search's own: how a script's threads go on, act by act, with no words and funds.
pub(crate) mod acts;
pub(crate) mod cells;
pub(crate) mod heap;
pub(crate) mod leaves;
pub(crate) mod line;
pub(crate) mod next_act;
pub(crate) mod plan;
pub(crate) mod pointer;
pub(crate) mod position;
pub(crate) mod store;
pub(crate) mod takes;
pub(crate) mod turn;
