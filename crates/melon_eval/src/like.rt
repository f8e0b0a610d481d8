//! Patterns, met piece by piece.
ghost use Rattle.std.specs.Prelude.{◌≡◌, option_map, drop, length, false};
ghost use Rattle.std.specs.Str.{chars};
ghost use Rattle.melon_query.specs.Like.{meets, stands_for, some_end, is_empty};
ghost use Rattle.melon_eval.specs.Pieces.{after_piece, after_first, IsFirst, IsCut, chars_of, has_any};

fn stands_for(wanted: char, found: char) -> bool
    ensures { result ≡ stands_for wanted found }
{
    wanted == '_' || wanted.to_ascii_lowercase() == found.to_ascii_lowercase()
}

/// The first character, and what follows it.
fn split_first(text: &str) -> Option<(char, &str)>
    ensures { IsFirst result (chars text.now) }
{
    let mut rest = text.chars();
    match rest.next() {
        Some(first) => Some((first, rest.as_str())),
        None => None,
    }
}

/// How many characters a text has.
fn count(text: &str) -> usize
    ensures { result ≡ length (chars text.now) }
{
    text.chars().count()
}

/// What stands before the first `%` and after it.
fn split_at_any(pattern: &str) -> Option<(&str, &str)>
    ensures { IsCut result (chars pattern.now) }
{
    pattern.split_once('%')
}

/// What is left of a text after its front, where that meets a piece.
#[tactic(auto, using(crate::proofs::Patterns::steps))]
fn after_piece<'t>(mut piece: &str, mut text: &'t str) -> Option<&'t str>
    ensures { option_map chars_of result ≡ after_piece (chars piece.now) (chars text.now) }
{
    while let Some((wanted, later)) = split_first(piece) {
        let (found, rest) = split_first(text)?;
        if !stands_for(wanted, found) {
            return None;
        }
        piece = later;
        text = rest;
    }
    Some(text)
}

/// What is left of a text after the first place where a piece is met.
#[tactic(auto, using(crate::proofs::Patterns::steps))]
fn after_first<'t>(piece: &str, mut text: &'t str) -> Option<&'t str>
    ensures { option_map chars_of result ≡ after_first (chars piece.now) (chars text.now) }
{
    loop {
        if let Some(rest) = after_piece(piece, text) {
            return Some(rest);
        }
        let (_, later) = split_first(text)?;
        text = later;
    }
}

fn is_used_up(text: &str) -> bool
    ensures { result ≡ is_empty (chars text.now) }
{
    text.is_empty()
}

/// Whether a whole text meets a piece.
fn meets_whole(piece: &str, text: &str) -> bool
    requires { has_any (chars piece.now) ≡ false }
    ensures { result ≡ meets (chars piece.now) (chars text.now) }
{
    match after_piece(piece, text) {
        Some(rest) => is_used_up(rest),
        None => false,
    }
}

/// Whether a text ends in what meets a piece.
fn ends_in(piece: &str, text: &str) -> bool
    requires { has_any (chars piece.now) ≡ false }
    ensures { result ≡ some_end (meets (chars piece.now)) (chars text.now) }
{
    match count(text).checked_sub(count(piece)) {
        Some(before) => meets_whole(piece, without(before, text)),
        None => false,
    }
}

/// A text without its first `n` characters.
fn without(n: usize, text: &str) -> &str
    ensures { chars result.now ≡ drop n (chars text.now) }
{
    let mut rest = text;
    for _ in 0..n {
        match split_first(rest) {
            Some((_, later)) => rest = later,
            None => return rest,
        }
    }
    rest
}

/// Whether a text meets a pattern, in which `%` stands for any run of characters and `_` for one.
/// Each piece between two `%` is met at the first place where it can be.
pub fn is_like(text: &str, pattern: &str) -> bool
    ensures { result ≡ meets (chars pattern.now) (chars text.now) }
{
    let Some((first, later)) = split_at_any(pattern) else {
        return meets_whole(pattern, text);
    };
    let Some(mut rest) = after_piece(first, text) else {
        return false;
    };
    let mut left = later;
    while let Some((piece, later)) = split_at_any(left) {
        match after_first(piece, rest) {
            Some(after) => rest = after,
            None => return false,
        }
        left = later;
    }
    ends_in(left, rest)
}
