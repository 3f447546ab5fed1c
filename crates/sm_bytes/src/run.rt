// Runs of bytes of one class, from the first byte on.
ghost use Rattle.std.specs.Prelude.{◌≡◌, ◌≤◌, length};
ghost use Rattle.std.specs.List.{prefix_len};

/// A class of bytes, as the digits. Contracts see its test.
pub trait ByteClass {
    ghost use Rattle.std.specs.Prelude.{ℕ, Bool};

    ghost holds: { ℕ → Bool };

    /// Whether the byte is one of the class.
    fn has(byte: u8) -> bool
        ensures { result ≡ holds byte };
}

/// How many bytes of the class stand first, up to the first other byte or the end.
#[inline(always)]
pub fn run_len<C: ByteClass>(bytes: &[u8]) -> usize
    ensures run { result ≡ prefix_len C.holds bytes.now }
    ensures within { result ≤ length bytes.now }
{
    for (at, byte) in bytes.iter().enumerate() {
        if !C::has(*byte) {
            return at;
        }
    }
    bytes.len()
}
