//! Cuts texts after their beginnings.
ghost use Rattle.std.specs.Prelude.{◌≡◌, ◌++◌, ℕ, List, IfSome, IsSomeAnd};

/// What comes after a beginning of a text, where the text begins so.
pub fn after_beginning<'a>(text: &'a [u8], beginning: &[u8]) -> Option<&'a [u8]>
    ensures some { IfSome result (λ left. text.now ≡ beginning.now ++ left.now) }
    ensures every { (left : List ℕ) → text.now ≡ beginning.now ++ left
        → IsSomeAnd result (λ found. found.now ≡ left) }
{
    text.strip_prefix(beginning)
}
