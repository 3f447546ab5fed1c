// Texts that are equal but for ASCII case. Names that may differ in case alone are judged by it.
ghost use Rattle.std.specs.Prelude.{◌↔◌, IsTrue};
ghost use Rattle.sm_ids.specs.Fold.{FoldsTo};

/// Whether two texts are equal without regard to the case of ASCII letters. No memory.
pub fn folds_to(a: &str, b: &str) -> bool
    ensures { IsTrue result ↔ FoldsTo a.now b.now }
{
    a.eq_ignore_ascii_case(b)
}
