// An answer before it is printed.
ghost use Rattle.std.specs.Prelude.{◌≡◌, None, Some, true};
ghost use Rattle.http_front.specs.Front.{plain, json};

use http::StatusCode;
use rate_types::Word;

/// The method that a field `Allow` names.
#[derive(Clone, Copy, Debug, PartialEq, Eq)]
pub enum Allow {
    Post,
    Get,
}

/// The body of an answer.
#[derive(Drop)]
pub enum Body {
    /// The phrase of the answer's status, as plain text.
    Phrase,
    /// A JSON text.
    Json(Word),
}

/// An answer before it is printed.
#[derive(Drop)]
pub struct HttpAnswer {
    pub status: StatusCode,
    pub allow: Option<Allow>,
    pub body: Body,
    /// The body is sent, and not its length alone.
    pub sends_body: bool,
    /// The connection closes after it.
    pub closes: bool,
}

impl HttpAnswer {
    /// An answer whose body is the phrase of its status. It takes no memory.
    pub fn plain(status: StatusCode, sends_body: bool, closes: bool) -> HttpAnswer
        ensures { result ≡ plain status None sends_body closes }
    {
        HttpAnswer {
            status,
            allow: None,
            body: Body::Phrase,
            sends_body,
            closes,
        }
    }

    /// The answer to a method that the target doesn't take: it takes this one. It takes no memory.
    pub fn not_allowed(allow: Allow, sends_body: bool, closes: bool) -> HttpAnswer
        ensures { result ≡ plain 405 (Some allow) sends_body closes }
    {
        HttpAnswer {
            status: StatusCode::METHOD_NOT_ALLOWED,
            allow: Some(allow),
            body: Body::Phrase,
            sends_body,
            closes,
        }
    }

    /// An answer whose body is this JSON text. It takes no memory.
    pub fn json(status: StatusCode, text: Word, closes: bool) -> HttpAnswer
        ensures { result ≡ json status text closes }
    {
        HttpAnswer {
            status,
            allow: None,
            body: Body::Json(text),
            sends_body: true,
            closes,
        }
    }
}
