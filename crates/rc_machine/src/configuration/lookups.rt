//! Looking up names, and texts as words.

ghost use Rattle.std.specs.Prelude.{◌≡◌, [], ◌∷◌, IfOk, OnOk, map, option_map, string_bytes};
ghost use Rattle.rc_machine.specs.Names.{read, the_name};
ghost use Rattle.rc_machine.specs.Tops.{uppermost};
ghost use Rattle.rc_machine.specs.Lists.{Extends, TakesLast, below_top};
ghost use Rattle.rc_model.specs.Run.State.{is_name, is_readable};
ghost use Rattle.rc_model.specs.Syntax.Words.{plain_words, word_texts};
ghost use Rattle.rc_scope.specs.States.{state_of};
ghost use Rattle.rc_text.specs.Texts.{text_bytes};

use crate::stack::list_stack::ListStack;
use rc_scope::{State, is_name, is_readable};
use rc_text::{Output, Text, Word};
use std::alloc::{AllocError, Global};

/// The texts of words.
pub(crate) fn texts(alloc: Global, words: &[Word]) -> Result<Vec<String>, AllocError>
    ensures { IfOk result (λ texts. map string_bytes texts.items ≡ word_texts words.now) }
{
    let mut texts = Vec::with_capacity(alloc, words.len())?;
    for word in words {
        texts.push(String::from_str(alloc, word.text())?)?;
    }
    Ok(texts)
}

/// The number of popped words after which their room is given back, so that a long list does not take the room of both
/// its words and its texts.
const WORDS_AT_ONCE: usize = 65_536;

/// Pops the last word of the top list, if it has one. Now and then gives back the room of the words popped before it.
fn pop_word(words: &mut ListStack<Word>, popped: usize) -> Option<Word>
    ensures { TakesLast words.old words.new result }
{
    if popped % WORDS_AT_ONCE == WORDS_AT_ONCE - 1 {
        words.shrink();
    }
    words.take_last()
}

/// Pops the top list and returns its texts, or none if there is no list.
pub(crate) fn take_texts(
    alloc: Global,
    words: &mut ListStack<Word>,
) -> Result<Vec<Text>, AllocError>
    ensures texts { IfOk result (λ texts. map text_bytes texts.items ≡ word_texts (uppermost words.old)) }
    ensures below { OnOk result (words.new ≡ below_top words.old) }
{
    let count = words.top().map_or(0, |list| list.len());
    let mut texts = Vec::with_capacity(alloc, count)?;
    while let Some(word) = pop_word(words, texts.len()) {
        texts.push(word.into_text()?)?;
    }
    words.drop_top();
    texts.reverse();
    Ok(texts)
}

/// Pushes texts as a list of words with no marks.
#[tactic(auto, using(crate::proofs::Stacks::extends))]
pub(crate) fn put_texts(words: &mut ListStack<Word>, texts: Vec<Text>) -> Result<(), AllocError>
    ensures { OnOk result (words.new ≡ plain_words (map text_bytes texts.items) ∷ words.old) }
{
    words.begin()?;
    words.reserve(texts.len())?;
    for text in texts {
        words.push(Word::plain(text))?;
    }
    Ok(())
}

/// Pushes the members of output as a list of words with no marks.
#[tactic(auto, using(crate::proofs::Stacks::extends))]
pub(crate) fn put_members(
    alloc: Global,
    words: &mut ListStack<Word>,
    output: &Output,
) -> Result<(), AllocError>
    ensures { OnOk result (words.new ≡ plain_words output.now ∷ words.old) }
{
    words.begin()?;
    let mut members = output.members(alloc)?;
    while let Some(member) = members.next() {
        words.push(Word::plain(Text::of(alloc, member)?))?;
    }
    Ok(())
}

/// Puts a copy of a value on the top list, as words with no marks.
#[tactic(auto, using(crate::proofs::Stacks::extends))]
pub(crate) fn extend_by_value(words: &mut ListStack<Word>, value: &[Text]) -> Result<(), AllocError>
    ensures { OnOk result (Extends words.old words.new (plain_words (map text_bytes value.now))) }
{
    for text in value {
        words.push(Word::plain(text.clone()?))?;
    }
    Ok(())
}

/// Pushes a copy of a value as a list of words with no marks.
#[tactic(auto, using(crate::proofs::Stacks::extends))]
pub(crate) fn put_value(words: &mut ListStack<Word>, value: &[Text]) -> Result<(), AllocError>
    ensures { OnOk result (words.new ≡ plain_words (map text_bytes value.now) ∷ words.old) }
{
    words.begin()?;
    extend_by_value(words, value)
}

/// Pushes a text as a list of one word with no marks.
#[tactic(auto, using(crate::proofs::Stacks::extends))]
pub(crate) fn put_text(words: &mut ListStack<Word>, text: Text) -> Result<(), AllocError>
    ensures { OnOk result (words.new ≡ plain_words (text_bytes text ∷ []) ∷ words.old) }
{
    words.begin()?;
    let word = Word::plain(text);
    words.push(word)
}

/// The one name in the words, if it is allowed after a `$`.
fn readable_name(words: &[Word]) -> Option<&str>
    ensures { option_map (λ name. name.now) result ≡ the_name is_readable (word_texts words.now) }
{
    let [word] = words else {
        return None;
    };
    let name = word.text();
    if is_readable(name) { Some(name) } else { None }
}

/// The one name in the words, if it is that of a variable.
pub(crate) fn variable_name(words: &[Word]) -> Option<&str>
    ensures { option_map (λ name. name.now) result ≡ the_name is_name (word_texts words.now) }
{
    let [word] = words else {
        return None;
    };
    let name = word.text();
    if is_name(name) { Some(name) } else { None }
}

/// The value of a `$` and these words, or none if they are not a name.
pub(crate) fn read<'a>(state: &'a State, words: &[Word]) -> Option<&'a [Text]>
    ensures { option_map (λ v. map text_bytes v.now) result ≡ read (state_of state.now) (word_texts words.now) }
{
    let name = readable_name(words)?;
    Some(state.lookup(name))
}
