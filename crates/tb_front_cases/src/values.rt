//! What texts stand for, in words.

use sqlite_items::Items;
use std::alloc::{AllocError, Global};
use tb_lex::{Text, TextCharacter};

/// The characters, with `^` before each for which an escape stands.
fn show(out: &mut String, characters: &[TextCharacter]) -> Result<(), AllocError> {
    for character in characters {
        if character.escaped {
            out.push('^')?;
        }
        out.push(character.value)?;
    }
    Ok(())
}

/// The characters that these bytes, as they are written between the quotes of a text, stand for.
pub fn characters(alloc: Global, source: &[u8]) -> Result<String, AllocError> {
    let source = Items::from_slice(alloc, source)?;
    let text = Text { source };
    let mut out = String::new(alloc);
    match text.characters(alloc)? {
        Some(characters) => show(&mut out, &characters)?,
        None => out.push_str("none")?,
    }
    Ok(out)
}
