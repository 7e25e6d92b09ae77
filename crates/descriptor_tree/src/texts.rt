use rate_types::{Items, Text};

/// A list of texts.
pub type Texts = Items<Text>;
