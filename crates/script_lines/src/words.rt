// The words of a line.
ghost use Rattle.std.specs.Prelude.{◌≡◌, [], ◌∷◌, MatchOption, option_map};
ghost use Rattle.script_lines.specs.Words.{words_of, rest_of, words_after, text_after};

// The first word of a text, and what stands after the U+0020 that ends it, where one does.
pub(crate) fn cut(text: &str) -> (&str, Option<&str>)
    ensures words { words_of text.now ≡ result.0.now ∷ words_after (option_map (λ s. s.now) result.1) }
    ensures rest { rest_of text.now ≡ text_after (option_map (λ s. s.now) result.1) }
{
    match text.split_once(' ') {
        Some((word, rest)) => (word, Some(rest)),
        None => (text, None),
    }
}

// The first word of what stands after a word, and what stands after that one; none where nothing stands there.
pub(crate) fn next_word(rest: Option<&str>) -> Option<(&str, Option<&str>)>
    ensures { let words = words_after (option_map (λ s. s.now) rest.entry) in
        MatchOption result (words ≡ []) (λ parts. words ≡ parts.0.now ∷ words_after (option_map (λ s. s.now) parts.1)) }
{
    Some(cut(rest?))
}
