//! The forms of lines, by the text after the first word.

ghost use Rattle.std.specs.Prelude.{◌≡◌, ◌↔◌, ℕ, ◌≤◌, List, ◌∷◌, length, IsSome, IfSome, MatchOption, IsTrue};
ghost use Rattle.lis_words.specs.Words.{is_property, is_file_name, is_count};
ghost use Rattle.lis_model.specs.Step.{Item, Payload, no_payload};
ghost use Rattle.lis_model.specs.Step.Item.{Do};
ghost use Rattle.lis_model.specs.declared.command.Command.TheVariants.{Mkdir, Rmdir, Axiom, Unaxiom, Write, Cat, Mv, Rename, Rm, Cd, Pwd, Ls, Props, Way, Stat};
ghost use Rattle.lis_model.specs.Script.{words_of, one_word_form, two_words_form, any_word, tags_form, create_form, add_form, alone_form};
ghost use Rattle.lis_line.specs.Forms.{asked_of, word_asks, pair_asks, IsCounted, IsUncounted};

use crate::line::{next_word, no_words, only_word, two_words};
use lis_limits::{MAX_ASSIGNED, MAX_LINE};
use lis_model::command::{Command, Tags};
use lis_model::refusal::Refusal;
use lis_place::Text;
use lis_words::{Name, Word, read_count, read_name, read_word};

/// Reads a word of a line that may be a property.
fn read_property(bytes: &[u8]) -> Option<Word>
    ensures word { IsSome result ↔ IsTrue (is_property bytes.now) }
    ensures same { IfSome result (λ word. word ≡ bytes.now) }
{
    read_word(bytes)
}

/// The only word of a text, if it may be a property.
fn property(text: &[u8]) -> Option<Word>
    ensures { (item : List ℕ → Item) → word_asks item result ≡ one_word_form is_property item (words_of text.now) }
{
    let word = only_word(text)?;
    match read_property(word) {
        None => None,
        Some(word) => Some(word),
    }
}

/// The two words of a text that has no others, if both may be properties.
fn two_properties(text: &[u8]) -> Option<(Word, Word)>
    ensures { (item : List ℕ → List ℕ → Item) → pair_asks item result ≡ two_words_form is_property is_property item (words_of text.now) }
{
    let (first, second) = two_words(text)?;
    let left = read_property(first)?;
    let right = read_property(second)?;
    Some((left, right))
}

/// The only word of a text, if it is a file name.
fn file_name(text: &[u8]) -> Option<Name>
    ensures { (item : List ℕ → Item) → word_asks item result ≡ one_word_form is_file_name item (words_of text.now) }
{
    let word = only_word(text)?;
    read_name(word)
}

pub fn mkdir_form(text: &[u8]) -> Result<Command, Refusal>
    ensures { (payload : Payload) → asked_of payload result ≡ one_word_form is_property (λ word. Do (Mkdir word) no_payload) (words_of text.now) }
{
    match property(text) {
        None => Err(Refusal::BadLine),
        Some(word) => Ok(Command::Mkdir(word)),
    }
}

pub fn rmdir_form(text: &[u8]) -> Result<Command, Refusal>
    ensures { (payload : Payload) → asked_of payload result ≡ one_word_form is_property (λ word. Do (Rmdir word) no_payload) (words_of text.now) }
{
    match property(text) {
        None => Err(Refusal::BadLine),
        Some(word) => Ok(Command::Rmdir(word)),
    }
}

pub fn axiom_form(text: &[u8]) -> Result<Command, Refusal>
    ensures { (payload : Payload) → asked_of payload result ≡ two_words_form is_property is_property (λ left right. Do (Axiom left right) no_payload) (words_of text.now) }
{
    match two_properties(text) {
        None => Err(Refusal::BadLine),
        Some((left, right)) => Ok(Command::Axiom(left, right)),
    }
}

pub fn unaxiom_form(text: &[u8]) -> Result<Command, Refusal>
    ensures { (payload : Payload) → asked_of payload result ≡ two_words_form is_property is_property (λ left right. Do (Unaxiom left right) no_payload) (words_of text.now) }
{
    match two_properties(text) {
        None => Err(Refusal::BadLine),
        Some((left, right)) => Ok(Command::Unaxiom(left, right)),
    }
}

/// The words to be assigned to a file. All of them are read, even if there are too many.
fn tags_form(text: &[u8]) -> Result<Tags, Refusal>
    ensures { result ≡ tags_form (words_of text.now) }
{
    let mut tags = Tags::new();
    let mut is_over = false;
    let mut rest = text;
    while let Some((word, behind)) = next_word(rest) {
        let tag = match read_property(word) {
            None => return Err(Refusal::BadLine),
            Some(tag) => tag,
        };
        if tags.len() < MAX_ASSIGNED {
            tags.push(&tag);
        } else {
            is_over = true;
        }
        rest = behind;
    }
    if is_over {
        Err(Refusal::TooManyAssigned)
    } else {
        Ok(tags)
    }
}

pub fn create_form(text: &[u8]) -> Result<Command, Refusal>
    ensures { (payload : Payload) → asked_of payload result ≡ create_form (words_of text.now) }
{
    let Some((first, rest)) = next_word(text) else {
        return Err(Refusal::BadLine);
    };
    let Some(name) = read_name(first) else {
        return Err(Refusal::BadLine);
    };
    match tags_form(rest) {
        Ok(tags) => Ok(Command::Create(name, tags)),
        Err(refusal) => Err(refusal),
    }
}

/// A word, the number that the count after it spells, and the text after both; `None` if there is no count.
pub fn counted(text: &[u8]) -> Option<(&[u8], u64, &[u8])>
    ensures { MatchOption result (IsUncounted (words_of text.now)) (λ found. IsCounted (words_of text.now) found.0.now found.1 (words_of found.2.now)) }
{
    let (first, rest) = next_word(text)?;
    let (size, rest) = next_word(rest)?;
    match read_count(size) {
        None => None,
        Some(count) => Some((first, count, rest)),
    }
}

/// What `add` requests, by the word before the count and the text after it.
pub fn add_form(first: &[u8], text: &[u8]) -> Result<Command, Refusal>
    ensures { (size : List ℕ) (payload : Payload) → IsTrue (is_count size) → asked_of payload result ≡ add_form (first.now ∷ size ∷ words_of text.now) payload }
{
    let Some(name) = read_name(first) else {
        return Err(Refusal::BadLine);
    };
    match tags_form(text) {
        Ok(tags) => Ok(Command::Add(name, tags)),
        Err(refusal) => Err(refusal),
    }
}

/// What `write` requests, by the word before the count and the text after it.
pub fn write_form(first: &[u8], text: &[u8]) -> Result<Command, Refusal>
    ensures { (size : List ℕ) (payload : Payload) → IsTrue (is_count size)
        → asked_of payload result ≡ two_words_form is_file_name is_count (λ name size. Do (Write name) payload) (first.now ∷ size ∷ words_of text.now) }
{
    if !no_words(text) {
        return Err(Refusal::BadLine);
    }
    match read_name(first) {
        None => Err(Refusal::BadLine),
        Some(name) => Ok(Command::Write(name)),
    }
}

pub fn cat_form(text: &[u8]) -> Result<Command, Refusal>
    ensures { (payload : Payload) → asked_of payload result ≡ one_word_form is_file_name (λ name. Do (Cat name) no_payload) (words_of text.now) }
{
    match file_name(text) {
        None => Err(Refusal::BadLine),
        Some(name) => Ok(Command::Cat(name)),
    }
}

pub fn mv_form(text: &[u8]) -> Result<Command, Refusal>
    requires { length text.now ≤ MAX_LINE }
    ensures { (payload : Payload) → asked_of payload result ≡ two_words_form is_file_name any_word (λ name word. Do (Mv name word) no_payload) (words_of text.now) }
{
    let Some((first, path)) = two_words(text) else {
        return Err(Refusal::BadLine);
    };
    let Some(name) = read_name(first) else {
        return Err(Refusal::BadLine);
    };
    match Text::of(path) {
        None => Err(Refusal::BadLine),
        Some(path) => Ok(Command::Mv(name, path)),
    }
}

pub fn rename_form(text: &[u8]) -> Result<Command, Refusal>
    ensures { (payload : Payload) → asked_of payload result ≡ two_words_form is_file_name is_file_name (λ name other. Do (Rename name other) no_payload) (words_of text.now) }
{
    let Some((first, second)) = two_words(text) else {
        return Err(Refusal::BadLine);
    };
    let Some(name) = read_name(first) else {
        return Err(Refusal::BadLine);
    };
    match read_name(second) {
        None => Err(Refusal::BadLine),
        Some(new) => Ok(Command::Rename(name, new)),
    }
}

pub fn rm_form(text: &[u8]) -> Result<Command, Refusal>
    ensures { (payload : Payload) → asked_of payload result ≡ one_word_form is_file_name (λ name. Do (Rm name) no_payload) (words_of text.now) }
{
    match file_name(text) {
        None => Err(Refusal::BadLine),
        Some(name) => Ok(Command::Rm(name)),
    }
}

pub fn cd_form(text: &[u8]) -> Result<Command, Refusal>
    requires { length text.now ≤ MAX_LINE }
    ensures { (payload : Payload) → asked_of payload result ≡ one_word_form any_word (λ word. Do (Cd word) no_payload) (words_of text.now) }
{
    let Some(word) = only_word(text) else {
        return Err(Refusal::BadLine);
    };
    match Text::of(word) {
        None => Err(Refusal::BadLine),
        Some(text) => Ok(Command::Cd(text)),
    }
}

pub fn pwd_form(text: &[u8]) -> Result<Command, Refusal>
    ensures { (payload : Payload) → asked_of payload result ≡ alone_form (Do Pwd no_payload) (words_of text.now) }
{
    if no_words(text) {
        Ok(Command::Pwd)
    } else {
        Err(Refusal::BadLine)
    }
}

pub fn ls_form(text: &[u8]) -> Result<Command, Refusal>
    ensures { (payload : Payload) → asked_of payload result ≡ alone_form (Do Ls no_payload) (words_of text.now) }
{
    if no_words(text) {
        Ok(Command::Ls)
    } else {
        Err(Refusal::BadLine)
    }
}

pub fn props_form(text: &[u8]) -> Result<Command, Refusal>
    ensures { (payload : Payload) → asked_of payload result ≡ one_word_form is_file_name (λ name. Do (Props name) no_payload) (words_of text.now) }
{
    match file_name(text) {
        None => Err(Refusal::BadLine),
        Some(name) => Ok(Command::Props(name)),
    }
}

pub fn way_form(text: &[u8]) -> Result<Command, Refusal>
    ensures { (payload : Payload) → asked_of payload result ≡ one_word_form is_file_name (λ name. Do (Way name) no_payload) (words_of text.now) }
{
    match file_name(text) {
        None => Err(Refusal::BadLine),
        Some(name) => Ok(Command::Way(name)),
    }
}

pub fn stat_form(text: &[u8]) -> Result<Command, Refusal>
    ensures { (payload : Payload) → asked_of payload result ≡ alone_form (Do Stat no_payload) (words_of text.now) }
{
    if no_words(text) {
        Ok(Command::Stat)
    } else {
        Err(Refusal::BadLine)
    }
}
