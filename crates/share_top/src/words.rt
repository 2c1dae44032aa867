// The commands by their words.
ghost use Rattle.std.specs.Prelude.{◌≡◌, ◌↔◌, IsTrue, IsNone, IfSome, ℕ, List, [], ◌∷◌, map, ◌≢◌};
ghost use Rattle.std.specs.Fmt.{decimal};
ghost use Rattle.std.specs.String.{string_bytes};
ghost use Rattle.share_top.specs.Words.{IsGrantNumber, NoCheck, NoPipe, NoServe, check_words, pipe_words, serve_words};

fn is_word(word: &str, text: &str) -> bool
    ensures { IsTrue result ↔ (word.now ≡ text.now) }
{
    word == text
}

// The name behind a command that has one; none where the words are others.
fn named_setup<'a>(words: &'a [String], command: &str) -> Option<&'a str>
    ensures named { IfSome result (λ name. map string_bytes words.now ≡ command.now ∷ name.now ∷ []) }
    ensures others { IsNone result → (name : List ℕ) → map string_bytes words.now ≢ command.now ∷ name ∷ [] }
{
    if words.len() != 2 {
        return None;
    }
    if !is_word(words[0].as_str(), command) {
        return None;
    }
    Some(words[1].as_str())
}

/// The name in `check SETUP`; none where the words are others.
pub fn checked_setup(words: &[String]) -> Option<&str>
    ensures named { IfSome result (λ name. map string_bytes words.now ≡ check_words name.now) }
    ensures others { IsNone result → NoCheck (map string_bytes words.now) }
{
    named_setup(words, "check")
}

/// The name in `serve SETUP`; none where the words are others.
pub fn served_setup(words: &[String]) -> Option<&str>
    ensures named { IfSome result (λ name. map string_bytes words.now ≡ serve_words name.now) }
    ensures others { IsNone result → NoServe (map string_bytes words.now) }
{
    named_setup(words, "serve")
}

// A number of 1 to 99 in decimal, without zeros in front.
fn grant_number(word: &str) -> Option<u8>
    ensures number { IfSome result (λ number. IsGrantNumber number × (word.now ≡ decimal number)) }
    ensures others { IsNone result → (number : ℕ) → IsGrantNumber number → word.now ≢ decimal number }
{
    let Ok(number) = word.parse::<u8>() else {
        return None;
    };
    if number == 0 || number > 99 {
        return None;
    }
    if !is_word(word, itoa::Buffer::new().format(number)) {
        return None;
    }
    Some(number)
}

/// The name and the number in `pipe SETUP GRANT`; none where the words are others.
pub fn piped_grant(words: &[String]) -> Option<(&str, u8)>
    ensures named { IfSome result (λ pair. IsGrantNumber pair.1 × (map string_bytes words.now ≡ pipe_words pair.0.now pair.1)) }
    ensures others { IsNone result → NoPipe (map string_bytes words.now) }
{
    if words.len() != 3 {
        return None;
    }
    if !is_word(words[0].as_str(), "pipe") {
        return None;
    }
    match grant_number(words[2].as_str()) {
        Some(number) => Some((words[1].as_str(), number)),
        None => None,
    }
}
