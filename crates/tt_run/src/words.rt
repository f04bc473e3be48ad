//! The words of the command line.
ghost use Rattle.std.specs.Prelude.{◌≡◌, ◌∷◌, [], map, string_bytes};
ghost use Rattle.tt_run.specs.Words.{form_of, action_of, begins_with_hyphen};

/// What the words ask for.
#[derive(Clone, Copy, Debug, PartialEq, Eq)]
pub(crate) enum Action {
    Create,
    Run,
}

// What the words ask for, where they have a form.
pub(crate) fn read_words(words: &[String]) -> Option<Action>
    ensures { result ≡ form_of (map string_bytes words.now) }
{
    match words {
        [word, folder] => read_form(word.as_bytes(), folder.as_bytes()),
        _ => None,
    }
}

// What two words ask for.
fn read_form(word: &[u8], folder: &[u8]) -> Option<Action>
    ensures { result ≡ form_of (word.now ∷ folder.now ∷ []) }
{
    if is_option(folder) {
        None
    } else {
        read_action(word)
    }
}

// Whether the word begins with a hyphen.
fn is_option(word: &[u8]) -> bool
    ensures { result ≡ begins_with_hyphen word.now }
{
    match word {
        [first, ..] => *first == b'-',
        [] => false,
    }
}

// What the first word asks for.
fn read_action(word: &[u8]) -> Option<Action>
    ensures { result ≡ action_of word.now }
{
    if word == b"create".as_slice() {
        Some(Action::Create)
    } else if word == b"run".as_slice() {
        Some(Action::Run)
    } else {
        None
    }
}
