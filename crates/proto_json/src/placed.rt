use rate_types::Place;
use serde_json::Value;

/// A value of a message, with its place.
#[derive(Drop)]
pub struct Placed {
    pub place: Place,
    pub value: Value,
}

/// A list of a message: its place, and its items.
#[derive(Drop)]
pub struct List {
    pub place: Place,
    pub items: Vec<Value>,
}
