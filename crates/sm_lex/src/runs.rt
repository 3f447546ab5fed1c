// What ends lines, and stands blank in them.
ghost use Rattle.std.specs.Prelude.{◌≡◌, ◌-◌, ◌<◌, length, slice_index};
ghost use Rattle.std.specs.List.{suffix_len, list_all};
ghost use Rattle.sm_lex.specs.Lines.{is_blank, line_end_len};

/// Whether there are only spaces and tabs.
pub fn is_blank_line(bytes: &[u8]) -> bool
    ensures { result ≡ list_all is_blank bytes.now }
{
    bytes.iter().all(|byte| *byte == b' ' || *byte == b'\t')
}

/// How many bytes stand before the spaces and tabs at the end.
pub fn kept_len(bytes: &[u8]) -> usize
    ensures value { result ≡ length bytes.now - suffix_len is_blank bytes.now }
    ensures edge { result < length bytes.now → slice_index bytes.now result < 128 }
{
    let mut len = bytes.len();
    while len > 0 && (bytes[len - 1] == b' ' || bytes[len - 1] == b'\t') {
        len -= 1;
    }
    len
}

/// How many bytes of a line end stand first.
pub fn line_end_len(bytes: &[u8]) -> usize
    ensures { result ≡ line_end_len bytes.now }
{
    match bytes {
        [b'\r', b'\n', ..] => 2,
        [b'\r' | b'\n', ..] => 1,
        _ => 0,
    }
}
