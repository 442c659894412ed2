// The names of programs.
ghost use Rattle.std.specs.Prelude.{◌↔◌, All, IsTrue, slice_index_or};
ghost use Rattle.command_line.specs.ProgramName.{IsLetter, IsNameByte, IsName};

// Whether a byte is a lower-case letter.
fn is_letter(byte: u8) -> bool
    ensures { IsTrue result ↔ IsLetter byte }
{
    byte.is_ascii_lowercase()
}

// Whether a byte is such a letter, a digit or `_`.
fn is_name_byte(byte: u8) -> bool
    ensures { IsTrue result ↔ IsNameByte byte }
{
    is_letter(byte) || byte.is_ascii_digit() || byte == b'_'
}

// Whether the first byte is a letter.
fn has_letter(bytes: &[u8]) -> bool
    ensures { IsTrue result ↔ IsLetter (slice_index_or bytes.now 0 0) }
{
    match bytes.first() {
        Some(byte) => is_letter(*byte),
        None => false,
    }
}

// Whether each byte may stand in a name.
fn are_name_bytes(bytes: &[u8]) -> bool
    ensures { IsTrue result ↔ All IsNameByte bytes.now }
{
    bytes.iter().all(|byte| is_name_byte(*byte))
}

// Whether a program can have this name: a lower-case letter, and then such letters, digits and `_`, of at most 31 bytes in all.
pub fn is_name(name: &str) -> bool
    ensures { IsTrue result ↔ IsName name.now }
{
    let bytes = name.as_bytes();
    bytes.len() <= 31 && has_letter(bytes) && are_name_bytes(bytes)
}
