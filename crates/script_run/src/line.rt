use descriptor_tree::Config;
use rate_types::{Refused, Request, Seconds};
use std::sync::Arc;

/// A line of a script.
#[derive(Drop)]
pub enum Line {
    /// Checks a request.
    Check(Request),
    /// Installs a configuration.
    Reload(Arc<Config>),
    /// Offers a moment.
    Tick(Seconds),
    /// The line is refused: it has a record and no other effect.
    Bad(Refused),
}
