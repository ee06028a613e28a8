//! Ensembles of nodes, the configs that they make, and which sets of nodes decide.
#![tactic(auto)]

mod bytes;
mod config;
mod ensemble;
mod law;
mod point;

pub use config::{Config, meets, next_config};
pub use ensemble::{ENSEMBLE_LIMIT, Ensemble, EnsembleFault};
pub use law::{law_config, law_ensemble};
pub use point::common_point;
