ghost use Rattle.std.specs.Prelude.{◌≡◌, ◌≢◌, [], Some};
ghost use Rattle.config_json.specs.Rules as rules;

use rate_types::Text;

/// An empty text is none.
pub fn unless_empty(text: Option<Text>) -> Option<Text>
    ensures same { result ≡ rules.unless_empty text }
    ensures there { result ≢ Some [] }
{
    match text {
        Some(text) => if text.as_str().is_empty() {
            None
        } else {
            Some(text)
        },
        None => None,
    }
}
