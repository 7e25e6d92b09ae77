ghost use Rattle.std.specs.Prelude.{◌≡◌};
ghost use Rattle.rule_lookup.specs.Rule.{is_wildcard, covers};

use rate_types::Text;

/// Whether a value is a wildcard: it ends in `*`.
pub fn is_wildcard(value: &Text) -> bool
    ensures { result ≡ is_wildcard value.now }
{
    value.as_str().as_bytes().ends_with(b"*")
}

/// Whether a text begins with what stands before a wildcard's `*`.
pub fn covers(wildcard: &Text, text: &Text) -> bool
    ensures { result ≡ covers wildcard.now text.now }
{
    let wildcard = wildcard.as_str().as_bytes();
    let before = &wildcard[..wildcard.len().saturating_sub(1)];
    text.as_str().as_bytes().starts_with(before)
}
