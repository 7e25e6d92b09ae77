// Numbers among the words.
ghost use Rattle.std.specs.Prelude.{◌≡◌, ◌≤◌, IfSome, option_map};
ghost use Rattle.command_words.specs.Words as spec;

// The number that a text spells.
fn number_of(text: &str) -> Option<u64>
    ensures { result ≡ spec.number_of text.now }
{
    match text.parse::<u64>() {
        Ok(n) => Some(n),
        Err(_) => None,
    }
}

/// The number that an option has, from `least` to `most`, and the default where the option isn't there. None where its text
/// is no such number.
pub fn number_in(text: Option<&str>, least: u64, most: u64, default: u64) -> Option<u64>
    requires { default ≤ most }
    ensures number { result ≡ spec.number_in least most default (option_map (λ t. t.now) text.entry) }
    ensures bound { IfSome result (λ n. n ≤ most) }
    ensures least { least ≤ default → IfSome result (λ n. least ≤ n) }
{
    let Some(text) = text else {
        return Some(default);
    };
    let n = number_of(text)?;
    if n < least || n > most {
        return None;
    }
    Some(n)
}

/// The same for numbers of 32 bits.
pub fn count_in(text: Option<&str>, least: u32, most: u32, default: u32) -> Option<u32>
    requires { default ≤ most }
    ensures number { result ≡ spec.number_in least most default (option_map (λ t. t.now) text.entry) }
    ensures bound { least ≤ default → IfSome result (λ n. (least ≤ n) × (n ≤ most)) }
{
    match number_in(text, u64::from(least), u64::from(most), u64::from(default)) {
        Some(n) => Some(n as u32),
        None => None,
    }
}
