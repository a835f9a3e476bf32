//! What a name is.
ghost use Rattle.std.specs.Prelude.{◌≡◌};
ghost use Rattle.std.specs.List.{list_all};
ghost use Rattle.words.specs.Names.{among, is_name, letter, name_byte, reserved};

/// The most bytes of a name.
pub const NAME_BYTES: usize = 12;

/// Whether a byte may stand in a name.
pub fn is_name_byte(b: u8) -> bool
    ensures { result ≡ name_byte b }
{
    matches!(b, b'a'..=b'z' | b'0'..=b'9' | b'_')
}

/// Whether a text is a word of a sheet that is no name.
fn is_reserved(bytes: &[u8]) -> bool
    ensures { result ≡ among bytes.now reserved }
{
    matches!(bytes, b"post" | b"rule" | b"true" | b"false")
}

/// Whether a text is a name.
pub fn is_name(bytes: &[u8]) -> bool
    ensures { result ≡ is_name bytes.now }
{
    let [first, ..] = bytes else {
        return false;
    };
    first.is_ascii_lowercase()
        && bytes.len() <= NAME_BYTES
        && !is_reserved(bytes)
        && bytes.iter().all(|b| is_name_byte(*b))
}
