ghost use Rattle.std.specs.Prelude.{◌≡◌, ◌==◌, ◌||◌, ◌∷◌, [], ◌<◌, MatchOption, chars, length};
ghost use Rattle.ci_props.specs.Pattern.{matches};
ghost use Rattle.ci_props.specs.Stops.{Stops};

/// Whether the whole text matches the pattern, in which `*` stands for any characters, `?` for one
/// character, and each other character for itself.
pub fn matches_pattern(pattern: &str, text: &str) -> bool
    ensures { result ≡ matches (chars pattern.now) (chars text.now) }
{
    match stop_of(pattern, text) {
        Stop::Whole => true,
        Stop::Star(pattern, text) => matches_end(pattern, text),
        Stop::Short => false,
        Stop::Apart => false,
    }
}

// Whether an end of the text matches. What stands before a star is tried at its first place alone:
// a later place leaves less for the star and what stands behind it.
fn matches_end(mut pattern: &str, mut text: &str) -> bool
    ensures { result ≡ matches (42 ∷ chars pattern.now) (chars text.now) }
{
    loop {
        match stop_of(pattern, text) {
            Stop::Whole => return true,
            Stop::Star(behind, rest) => {
                pattern = behind;
                text = rest;
            }
            Stop::Short => return false,
            Stop::Apart => match first(text) {
                None => return false,
                Some((_, rest)) => text = rest,
            },
        }
    }
}

// Where a pattern stops, compared with the characters of a text from its first one on.
enum Stop<'p, 't> {
    /// Both end.
    Whole,
    /// At a star: what stands behind it, and the rest of the text.
    Star(&'p str, &'t str),
    /// The text ends, and the pattern wants more characters.
    Short,
    /// The next character isn't the one that is wanted.
    Apart,
}

fn stop_of<'p, 't>(mut pattern: &'p str, mut text: &'t str) -> Stop<'p, 't>
    ensures { Stops pattern.entry.now text.entry.now result }
{
    loop {
        let Some((sign, behind)) = first(pattern) else {
            return if text.is_empty() {
                Stop::Whole
            } else {
                Stop::Apart
            };
        };
        if sign == '*' {
            return Stop::Star(behind, text);
        }
        let Some((character, rest)) = first(text) else {
            return Stop::Short;
        };
        if !stands_for(sign, character) {
            return Stop::Apart;
        }
        pattern = behind;
        text = rest;
    }
}

// A sign other than a star.
fn stands_for(sign: char, character: char) -> bool
    ensures { result ≡ (sign == 63 || sign == character) }
{
    sign == '?' || sign == character
}

// The first character, and what stands behind it.
fn first(text: &str) -> Option<(char, &str)>
    ensures split { MatchOption result (chars text.now ≡ [])
        (λ found. chars text.now ≡ found.0 ∷ chars found.1.now) }
    ensures shorter { MatchOption result (length text.now ≡ 0)
        (λ found. length found.1.now < length text.now) }
{
    let mut characters = text.chars();
    let character = characters.next()?;
    Some((character, characters.as_str()))
}
