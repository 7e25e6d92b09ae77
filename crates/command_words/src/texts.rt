// Words as texts, and back.
ghost use Rattle.std.specs.Prelude.{◌≡◌, [], map, IfOk, option_map, unwrap_or};

use rate_types::{Names, OutOfMemory, Word};
use std::alloc::Global;

/// The texts of the words.
pub fn texts_of<'a>(alloc: Global, words: &'a [Word]) -> Result<Vec<&'a str>, OutOfMemory>
    ensures { IfOk result (λ v. map (λ t. t.now) v.items ≡ words.now) }
{
    let mut texts = Vec::new(alloc);
    'words: for index in 0..words.len() {
        texts.push(words[index].as_str())?;
    }
    Ok(texts)
}

// Words with these texts.
fn copies(alloc: Global, texts: &[&str]) -> Result<Names, OutOfMemory>
    ensures { IfOk result (λ n. n ≡ map (λ t. t.now) texts.now) }
{
    let mut words = Vec::new(alloc);
    'texts: for index in 0..texts.len() {
        let text = String::from_str(alloc, texts[index])?;
        words.push(Word::of(text))?;
    }
    Ok(Names::of(words))
}

/// The word of a text, none where there is none.
pub fn word_of(alloc: Global, text: Option<&str>) -> Result<Option<Word>, OutOfMemory>
    ensures { IfOk result (λ w. w ≡ option_map (λ t. t.now) text.entry) }
{
    match text {
        Some(text) => Ok(Some(Word::of(String::from_str(alloc, text)?))),
        None => Ok(None),
    }
}

/// Words with these texts, none where there are none.
pub fn names_of(alloc: Global, texts: Option<&[&str]>) -> Result<Names, OutOfMemory>
    ensures { IfOk result (λ n. n ≡ unwrap_or (option_map (λ ts. map (λ t. t.now) ts.now) texts.entry) []) }
{
    match texts {
        Some(texts) => copies(alloc, texts),
        None => Ok(Names::new(alloc)),
    }
}
