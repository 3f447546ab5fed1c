// Where strings and text blocks end (Smithy 2.0, "Smithy IDL", "String values" and "Text blocks"): at the next
// quotation marks that no backslash escapes.
ghost use Rattle.std.specs.Prelude.{◌≡◌, false, if◌then◌else◌};
ghost use Rattle.sm_lex.specs.Lines.{is_backslash};
ghost use Rattle.sm_lex.specs.Tokens.{first_end, one_quote, three_quotes};

/// How many bytes stand together: a backslash takes the byte behind it along.
fn step(byte: u8) -> usize
    ensures { result ≡ (if is_backslash byte then 2 else 1) }
{
    if byte == b'\\' { 2 } else { 1 }
}

/// The place of the first quotation mark that no backslash escapes.
pub fn string_end(bytes: &[u8]) -> Option<usize>
    ensures { result ≡ first_end one_quote false bytes.now }
{
    let mut at = 0;
    while at < bytes.len() {
        if bytes[at] == b'"' {
            return Some(at);
        }
        at += step(bytes[at]);
    }
    None
}

/// The place of the first three quotation marks that no backslash escapes.
pub fn block_end(bytes: &[u8]) -> Option<usize>
    ensures { result ≡ first_end three_quotes false bytes.now }
{
    let mut at = 0;
    while at < bytes.len() {
        if bytes[at..].starts_with(b"\"\"\"") {
            return Some(at);
        }
        at += step(bytes[at]);
    }
    None
}
