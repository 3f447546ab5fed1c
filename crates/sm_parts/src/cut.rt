// What stands before the first mark of some bytes, and what is behind it.
ghost use Rattle.std.specs.Prelude.{◌≡◌, ◌≤◌, length};
ghost use Rattle.std.specs.List.{position_or_len};
ghost use Rattle.sm_parts.specs.Cuts.{IsCutAt, is_mark};

/// Bytes up to a mark.
#[derive(Debug, Clone, Copy)]
pub struct Cut<'a> {
    /// What stands before the mark: all where none stands.
    pub taken: &'a [u8],
    /// What is behind it.
    pub behind: Option<&'a [u8]>,
}

/// Where the mark stands first; else how many bytes there are.
fn mark_place(bytes: &[u8], mark: u8) -> usize
    ensures place { result ≡ position_or_len (is_mark mark) bytes.now }
    ensures within { result ≤ length bytes.now }
{
    for (at, byte) in bytes.iter().enumerate() {
        if *byte == mark {
            return at;
        }
    }
    bytes.len()
}

/// Cuts bytes at the first mark.
pub fn cut_at(bytes: &[u8], mark: u8) -> Cut<'_>
    ensures { IsCutAt mark bytes.now result }
{
    let len = mark_place(bytes, mark);
    if len == bytes.len() {
        return Cut {
            taken: bytes,
            behind: None,
        };
    }
    Cut {
        taken: &bytes[..len],
        behind: Some(&bytes[len + 1..]),
    }
}
