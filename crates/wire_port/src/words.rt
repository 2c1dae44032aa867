// The lines of a text, and the words of a line.
ghost use Rattle.std.specs.Prelude.{◌≡◌, ◌∷◌, ◌≤◌, length};
ghost use Rattle.std.specs.List.{prefix_len};
ghost use Rattle.std.specs.Option.{option_map};
ghost use Rattle.wire_port.specs.Words.{ends_line, is_blank, lines_of, words_of};
ghost use Rattle.wire_port.specs.Reading.{belongs, lines_left, words_left, Shorter};

/// Bytes that stand in a row.
#[derive(Clone, Copy)]
pub enum Class {
    InLine,
    Blank,
    InWord,
}

fn is_blank(byte: u8) -> bool
    ensures { result ≡ is_blank byte }
{
    byte == b'\t' || byte == b'\r' || byte == b' '
}

fn belongs(class: Class, byte: u8) -> bool
    ensures { result ≡ belongs class byte }
{
    match class {
        Class::InLine => byte != b'\n',
        Class::Blank => is_blank(byte),
        Class::InWord => !is_blank(byte),
    }
}

// How many bytes of a class stand at the front.
fn run(class: Class, text: &[u8]) -> usize
    ensures is { result ≡ prefix_len (belongs class) text.now }
    ensures bound { result ≤ length text.now }
{
    let mut count = 0;
    while count < text.len() && belongs(class, text[count]) {
        count += 1;
    }
    count
}

/// The first line of a text, and the text behind the byte that ends it.
pub fn first_line(text: &[u8]) -> (&[u8], Option<&[u8]>)
    ensures lines { lines_of text.now ≡ result.0.now ∷ lines_left (option_map (λ rest. rest.now) result.1) }
    ensures less { Shorter (option_map (λ rest. rest.now) result.1) text.now }
{
    let (line, behind) = text.split_at(run(Class::InLine, text));
    match behind.split_first() {
        Some((_, rest)) => (line, Some(rest)),
        None => (line, None),
    }
}

/// The first word, and the text behind it.
pub fn next_word(text: &[u8]) -> Option<(&[u8], &[u8])>
    ensures { words_of text.now ≡ words_left (option_map (λ pair. (pair.0.now, pair.1.now)) result) }
{
    let (_, text) = text.split_at(run(Class::Blank, text));
    let count = run(Class::InWord, text);
    if count == 0 {
        return None;
    }
    Some(text.split_at(count))
}
