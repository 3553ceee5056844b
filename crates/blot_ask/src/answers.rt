//! Which answers are lists, and when an answer is complete.
ghost use Rattle.std.specs.Prelude.{◌≡◌};
ghost use Rattle.std.specs.List.{list_any, position_or_len};
ghost use Rattle.blot_types.specs.Keys.{same_text};
ghost use Rattle.blot_ask.specs.Answers.{ends_list, first_word, is_complete, is_list, is_single, is_tab};

const TAB: u8 = b'\t';

/// Whether the answer to a line that was sent is complete with this line of it, its first or a later one. An answer has one
/// line, unless its question asks for a list. A list goes on to a line that begins with `end` and a tab; in its place there
/// may be a single word, as `none`, or what is wrong with the question.
pub fn is_complete(asked: &[u8], is_first: bool, line: &[u8]) -> bool
    ensures { result ≡ is_complete asked.now is_first line.now }
{
    !is_list(first_word(asked)) || ends_list(is_first, line)
}

// Whether a line ends a list, or stands in its place.
#[tactic(auto, unfolding(crate::specs::Answers::ends_list))]
fn ends_list(is_first: bool, line: &[u8]) -> bool
    ensures { result ≡ ends_list is_first line.now }
{
    let word = first_word(line);
    is_word(word, b"end") || (is_first && (is_single(line) || is_word(word, b"bad")))
}

// Whether a word asks for a list.
#[tactic(auto, unfolding(crate::specs::Answers::is_list))]
fn is_list(word: &[u8]) -> bool
    ensures { result ≡ is_list word.now }
{
    is_word(word, b"report")
        || is_word(word, b"execution")
        || is_word(word, b"allocation")
        || is_word(word, b"orders")
        || is_word(word, b"positions")
        || is_word(word, b"steps")
        || is_word(word, b"refusals")
        || is_word(word, b"sessions")
}

// The first word of a line.
fn first_word(line: &[u8]) -> &[u8]
    ensures { result.now ≡ first_word line.now }
{
    &line[..tab_at(line)]
}

// Where the first tab stands, or the length of the line where there is none.
fn tab_at(line: &[u8]) -> usize
    ensures place { result ≡ position_or_len is_tab line.now }
{
    line.iter().take_while(|byte| **byte != TAB).count()
}

// Whether a line is a single word.
fn is_single(line: &[u8]) -> bool
    ensures { result ≡ is_single line.now }
{
    !line.contains(&TAB)
}

/// Whether a word is this one.
pub(crate) fn is_word(word: &[u8], name: &[u8]) -> bool
    ensures { result ≡ same_text word.now name.now }
{
    word == name
}
