//! The numbers of refusals, as a record or a message shows them.

/// The bytes are no JSON.
pub const BAD_JSON: u32 = 1;
/// An object is needed here.
pub const NOT_OBJECT: u32 = 2;
/// The object has no field of this name.
pub const UNKNOWN_FIELD: u32 = 3;
/// Both spellings of one field stand in the object.
pub const TWO_NAMES: u32 = 4;
/// A value of another JSON kind is needed here.
pub const WRONG_KIND: u32 = 5;
/// A whole number, or a text of 1 to 20 digits, is needed here.
pub const NUMBER_FORM: u32 = 6;
/// The whole number is below 0 or above the field's greatest.
pub const NUMBER_RANGE: u32 = 7;
/// The enum has no value of this name.
pub const UNKNOWN_NAME: u32 = 8;
/// The program can't use this yet.
pub const NOT_BUILT: u32 = 9;
/// The domain of a configuration or of settings is empty.
pub const EMPTY_DOMAIN: u32 = 10;
/// An earlier configuration has the same domain.
pub const TWO_DOMAINS: u32 = 11;
/// The key of a node is empty.
pub const EMPTY_KEY: u32 = 12;
/// An earlier sibling has the same key and the same value.
pub const TWO_NODES: u32 = 13;
/// A limit has no unit.
pub const UNIT_MISSING: u32 = 14;
/// An unlimited policy has a unit.
pub const UNIT_WITH_UNLIMITED: u32 = 15;
/// A node stands below level 32.
pub const TOO_DEEP: u32 = 16;
/// The configuration has more than 65,536 nodes.
pub const TOO_MANY_NODES: u32 = 17;
/// A text of a configuration, of settings or of a stream has more than 1,024 bytes.
pub const TEXT_TOO_LONG: u32 = 18;
/// The domain of a request is empty.
pub const REQUEST_EMPTY_DOMAIN: u32 = 20;
/// A request has no descriptor.
pub const NO_DESCRIPTORS: u32 = 21;
/// A request has more than 32 descriptors.
pub const TOO_MANY_DESCRIPTORS: u32 = 22;
/// A descriptor has no entry.
pub const NO_ENTRIES: u32 = 23;
/// The key of an entry is empty.
pub const REQUEST_EMPTY_KEY: u32 = 24;
/// A descriptor has more than 32 entries.
pub const TOO_MANY_ENTRIES: u32 = 25;
/// A text of a request has more than 1,024 bytes.
pub const REQUEST_TEXT_TOO_LONG: u32 = 26;
/// A line has no event.
pub const NO_EVENT: u32 = 27;
/// A line has more than one event.
pub const TWO_EVENTS: u32 = 28;
/// The name of a rule is among those that it replaces.
pub const SELF_REPLACE: u32 = 29;
/// A rule replaces more than 32 others.
pub const TOO_MANY_REPLACES: u32 = 30;
/// A reporting interval is absent or 0.
pub const INTERVAL_ZERO: u32 = 31;
/// A bucket has no part that makes its id.
pub const NO_BUCKET_ID: u32 = 32;
/// A part has neither a fixed text nor an attribute, or both.
pub const PART_KIND: u32 = 33;
/// More than one field of a oneof is there.
pub const TWO_OF_ONE: u32 = 34;
/// A bucket action has no action.
pub const NO_ACTION: u32 = 35;
/// A line has no moment.
pub const NO_TIME: u32 = 36;
/// A bucket has more than 32 parts.
pub const TOO_MANY_PARTS: u32 = 37;
/// The line's moment is less than an earlier line's.
pub const TIME_BACK: u32 = 39;
/// The text is no duration.
pub const BAD_DURATION: u32 = 40;
/// The duration has a digit other than 0 past the third decimal.
pub const TOO_FINE: u32 = 41;
/// The duration is more than 1,000,000,000 seconds.
pub const DURATION_TOO_LONG: u32 = 42;
/// A token bucket holds no token.
pub const NO_TOKENS: u32 = 44;
/// A token bucket is filled by no token.
pub const NO_FILL: u32 = 45;
/// The interval at which a token bucket is filled is absent or 0.
pub const FILL_ZERO: u32 = 46;
/// The timeout of an expired assignment is 0.
pub const TIMEOUT_ZERO: u32 = 47;
/// An earlier pool has the same bucket.
pub const TWO_POOLS: u32 = 48;
/// The lifetime of a pool's assignments is absent or 0.
pub const NO_LIFETIME: u32 = 49;
/// A line names no client.
pub const NO_CLIENT: u32 = 50;
/// The reports of a line are of another domain than the pools.
pub const OTHER_DOMAIN: u32 = 51;
