//! Requests in the form that proxies send, read from the tokens of their JSON or from its bytes with no value between.
//!
//! [`read_usual`] takes a request of the usual form from the front of a reader's tokens (`specs/Usual.antt`), or says that it isn't
//! of that form. Such tokens are read as that request (`proofs/Laws.antt`), so a caller answers what `reply_text` says of the text,
//! and asks its reader of values for all other forms.
//!
//! [`read_compact`] takes such a request from the front of a text that has no space between its tokens and no escape
//! (`specs/Compact.antt`): literals are compared and texts taken, and no token is made. The text is what is printed of the request's
//! tokens (`proofs/Printing.antt`), so its tokens are those.
#![tactic(auto)]

mod compact;
mod cursor;
mod request;
mod tokens;

pub use compact::read_compact;
pub use cursor::Cursor;
pub use request::read_usual;
pub use tokens::{closes_object, is_at_end, opens_object, takes_key};
