/// A field's two spellings: in lowerCamelCase, and the original one with underscores. They are one for a name of one word.
pub type FieldName = (&'static str, &'static str);
