//! The words of a line.
ghost use Rattle.std.specs.Prelude.{◌≡◌, ◌∷◌, [], MatchOption};
ghost use Rattle.usb_wire.specs.Words.{AreWords, words};

/// The words of a line, one space apart.
#[derive(Clone, Copy)]
pub(crate) enum Words<'a> {
    One(&'a str),
    Two(&'a str, &'a str),
    Three(&'a str, &'a str, &'a str),
    Four(&'a str, &'a str, &'a str, &'a str),
    /// Five and more.
    More,
}

/// Cuts a line at each space. Two spaces in a row have an empty word between them.
pub(crate) fn words_of(line: &str) -> Words<'_>
    ensures { AreWords (words line.now) result }
{
    let Some((first, after_first)) = first_word(line) else {
        return Words::One(line);
    };
    let Some((second, after_second)) = first_word(after_first) else {
        return Words::Two(first, after_first);
    };
    let Some((third, fourth)) = first_word(after_second) else {
        return Words::Three(first, second, after_second);
    };
    match first_word(fourth) {
        None => Words::Four(first, second, third, fourth),
        Some(_) => Words::More,
    }
}

/// The first word, and what comes after the space that follows it; None if there is one word.
fn first_word(line: &str) -> Option<(&str, &str)>
    ensures { MatchOption result (words line.now ≡ line.now ∷ [])
        (λ cut. words line.now ≡ cut.0.now ∷ words cut.1.now) }
{
    line.split_once(' ')
}
