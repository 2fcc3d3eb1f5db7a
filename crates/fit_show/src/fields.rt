//! The names of fields as a line shows them, and words one after another.
ghost use Rattle.std.specs.Prelude.{◌≡◌, ◌++◌, ◌∷◌, [], OnOk, codes, map};
ghost use Rattle.fit_show.specs.ShowLines as lines;

use std::alloc::AllocError;

/// Puts words after a text, one after another.
pub(crate) fn put_words(text: &mut Vec<u8>, words: &[&[u8]]) -> Result<(), AllocError>
    ensures { OnOk result (text.new.items ≡ text.old.items
        ++ lines.joined (map (λ w. w.now) words.now)) }
{
    for word in words {
        text.extend_from_slice(word)?;
    }
    Ok(())
}

/// What stands before a field after that many others.
pub(crate) fn separator(before: usize) -> &'static str
    ensures { result.now ≡ lines.separator before }
{
    if before == 0 { ": " } else { ", " }
}

/// Puts the name of a field after a separator.
pub(crate) fn put_name<'a>(
    text: &mut Vec<u8>,
    separator: &'a [u8],
    name: &'a [u8],
) -> Result<(), AllocError>
    ensures { OnOk result (text.new.items ≡ text.old.items
        ++ lines.joined (separator.now ∷ name.now ∷ codes "=" ∷ [])) }
{
    let words = [separator, name, b"=".as_slice()];
    put_words(text, words.as_slice())
}
