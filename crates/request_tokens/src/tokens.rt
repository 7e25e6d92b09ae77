// Takes of the next token, where it is of a kind.
ghost use Rattle.std.specs.Prelude.{◌≡◌, ◌∷◌, [], IfSome};
ghost use Rattle.std.specs.Bool.{OnTrue};
ghost use Rattle.json.specs.Token as token;

use json::{Reader, Token};

/// Takes the next token. True where it opens an object.
pub fn opens_object(reader: &mut Reader<'_>) -> bool
    ensures { OnTrue result (reader.old ≡ token.begin_object ∷ reader.new) }
{
    matches!(reader.next(), Some(Token::BeginObject))
}

/// Takes the next token. True where it closes an object.
pub fn closes_object(reader: &mut Reader<'_>) -> bool
    ensures { OnTrue result (reader.old ≡ token.end_object ∷ reader.new) }
{
    matches!(reader.next(), Some(Token::EndObject))
}

/// Takes the next token. True where it opens an array.
pub(crate) fn opens_array(reader: &mut Reader<'_>) -> bool
    ensures { OnTrue result (reader.old ≡ token.begin_array ∷ reader.new) }
{
    matches!(reader.next(), Some(Token::BeginArray))
}

/// Takes the next token. True where it is the name of a member, and this one.
pub fn takes_key(reader: &mut Reader<'_>, name: &str) -> bool
    ensures { OnTrue result (reader.old ≡ token.key name.now ∷ reader.new) }
{
    match reader.next() {
        Some(Token::Key(key)) => key == name,
        _ => false,
    }
}

/// Takes the next token. The text that it is, where it is a text.
pub(crate) fn take_text<'a>(reader: &mut Reader<'a>) -> Option<&'a str>
    ensures { IfSome result (λ text. reader.old ≡ token.string text.now ∷ reader.new) }
{
    match reader.next() {
        Some(Token::String(text)) => Some(text),
        _ => None,
    }
}

/// Takes the next token. True where there is none.
pub fn is_at_end(reader: &mut Reader<'_>) -> bool
    ensures { OnTrue result (reader.old ≡ []) }
{
    reader.next().is_none()
}
