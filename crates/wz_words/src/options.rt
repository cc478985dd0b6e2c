//! The names of the options, and what a word is by itself.

ghost use Rattle.std.specs.Prelude.{◌≡◌, option_map};
ghost use Rattle.wz_words.specs.Options.{same_text, flag_named, long_named, short_named};
ghost use Rattle.wz_words.specs.Parts.{halves_of, of_halves, of_flag, kind_there, is_option_word};
ghost use Rattle.wz_words.specs.Views.{flag_view, valued_view, halves_view, kind_view};

/// An option that takes no value.
#[derive(Clone, Copy)]
pub enum FlagName {
    KeepInit,
    Reactor,
    Report,
}

/// An option that takes one.
#[derive(Clone, Copy)]
pub enum ValuedName {
    Output,
    Function,
    RenameFunction,
    Fuel,
    SampleNumber,
}

/// What a word is while options may stand.
#[derive(Clone, Copy)]
pub enum WordForm<'w> {
    Operand,
    EndsOptions,
    Flag(FlagName),
    /// The value is the next word.
    TakesNext(ValuedName),
    /// The value stands behind `=`.
    HasValue(ValuedName, &'w str),
    Unknown,
}

/// Whether two texts are one.
pub fn is_text(word: &str, text: &str) -> bool
    ensures { result ≡ same_text word.now text.now }
{
    word == text
}

fn flag_of(word: &str) -> Option<FlagName>
    ensures { option_map flag_view result ≡ flag_named word.now }
{
    if is_text(word, "--keep-init-func") {
        Some(FlagName::KeepInit)
    } else if is_text(word, "--reactor") {
        Some(FlagName::Reactor)
    } else if is_text(word, "--report") {
        Some(FlagName::Report)
    } else {
        None
    }
}

fn long_option_of(word: &str) -> Option<ValuedName>
    ensures { option_map valued_view result ≡ long_named word.now }
{
    if is_text(word, "--output") {
        Some(ValuedName::Output)
    } else if is_text(word, "--init-func") {
        Some(ValuedName::Function)
    } else if is_text(word, "--rename-func") {
        Some(ValuedName::RenameFunction)
    } else if is_text(word, "--fuel") {
        Some(ValuedName::Fuel)
    } else if is_text(word, "--sample") {
        Some(ValuedName::SampleNumber)
    } else {
        None
    }
}

fn short_option_of(word: &str) -> Option<ValuedName>
    ensures { option_map valued_view result ≡ short_named word.now }
{
    if is_text(word, "-o") {
        Some(ValuedName::Output)
    } else if is_text(word, "-f") {
        Some(ValuedName::Function)
    } else if is_text(word, "-r") {
        Some(ValuedName::RenameFunction)
    } else {
        None
    }
}

/// What stands before the first `=` of a word, and what behind it.
pub fn split_at_sign(word: &str) -> Option<(&str, &str)>
    ensures { option_map halves_view result ≡ halves_of word.now }
{
    word.split_once('=')
}

fn looks_like_option(word: &str) -> bool
    ensures { result ≡ is_option_word word.now }
{
    matches!(word.as_bytes(), [b'-', _, ..])
}

fn form_with_sign(word: &str) -> WordForm<'_>
    ensures { kind_view result ≡ of_halves (halves_of word.now) }
{
    match split_at_sign(word) {
        Some((name, value)) => match long_option_of(name) {
            Some(option) => WordForm::HasValue(option, value),
            None => WordForm::Unknown,
        },
        None => WordForm::Unknown,
    }
}

fn form_of_option(word: &str) -> WordForm<'_>
    ensures { kind_view result ≡ of_flag (flag_named word.now) word.now }
{
    if let Some(flag) = flag_of(word) {
        return WordForm::Flag(flag);
    }
    if let Some(option) = long_option_of(word) {
        return WordForm::TakesNext(option);
    }
    if let Some(option) = short_option_of(word) {
        return WordForm::TakesNext(option);
    }
    form_with_sign(word)
}

/// What a word is, where the options may have ended.
pub fn form_of<'w>(ended: bool, word: &'w str) -> WordForm<'w>
    ensures { kind_view result ≡ kind_there ended word.now }
{
    if ended || !looks_like_option(word) {
        WordForm::Operand
    } else if is_text(word, "--") {
        WordForm::EndsOptions
    } else {
        form_of_option(word)
    }
}
