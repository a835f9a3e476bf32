//! The parts of a post line.
ghost use Rattle.std.specs.Prelude.{◌≡◌};
ghost use Rattle.std.specs.List.{list_all};
ghost use Rattle.std.specs.Option.{option_map};
ghost use Rattle.roster.specs.Entries.{line_byte, post_line};
ghost use Rattle.roster.specs.Parts.{line_of};

use words::is_name_byte;

/// A post line: the name of the post, and the text of its signals.
#[derive(Clone, Copy, PartialEq, Eq, Debug)]
pub struct PostLine<'a> {
    pub(crate) name: &'a [u8],
    pub(crate) signals: &'a [u8],
}

/// The post line that a text is, if it is one: behind `post` and a space stand the name, the one colon, and a space before the
/// signals.
pub(crate) fn post_line(text: &[u8]) -> Option<PostLine<'_>>
    ensures { post_line text.now ≡ option_map line_of result }
{
    let mut pieces = text.strip_prefix(b"post ")?.split(|b| *b == b':');
    let name = pieces.next()?;
    let behind = pieces.next()?;
    if pieces.next().is_some() {
        return None;
    }
    let signals = behind.strip_prefix(b" ")?;
    Some(PostLine { name, signals })
}

/// Whether all bytes may stand in a line that is no rule line.
pub(crate) fn are_line_bytes(text: &[u8]) -> bool
    ensures { result ≡ list_all line_byte text.now }
{
    text.iter().all(|b| is_line_byte(*b))
}

fn is_line_byte(b: u8) -> bool
    ensures { result ≡ line_byte b }
{
    matches!(b, b' ' | b':') || is_name_byte(b)
}
