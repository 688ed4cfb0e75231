//! Comments.

ghost use Rattle.std.specs.Prelude.{◌≡◌, ◌≤◌, length};
ghost use Rattle.std.specs.Option.{option_copied};
ghost use Rattle.tb_lex.specs.Characters.{after_front, is_in_line, begins_pair};
ghost use Rattle.tb_lex.specs.Comments.{after_block};

use crate::character::tail;

/// What follows a line comment: the text from the next line feed on.
pub fn after_line(text: &[char]) -> &[char]
    ensures { result.now ≡ after_front is_in_line text.now }
{
    let mut rest = text;
    while let [c, after @ ..] = rest {
        if *c == '\n' {
            return rest;
        }
        rest = after;
    }
    rest
}

/// Whether a text begins with these two characters.
fn begins_pair(first: char, second: char, text: &[char]) -> bool
    ensures { result ≡ begins_pair first second text.now }
{
    match text {
        [c, d, ..] => *c == first && *d == second,
        _ => false,
    }
}

/// What follows a block comment, whose text goes on so behind its `/*`; nothing where it does not end.
#[tactic(auto, using(crate::proofs::Blocks::steps))]
pub fn after_block(text: &[char]) -> Option<&[char]>
    ensures { option_copied result ≡ after_block 0 text.now }
{
    let mut depth: usize = 0;
    let mut rest = text;
    while !rest.is_empty() {
        if begins_pair('/', '*', rest) {
            depth += 1;
            rest = tail(tail(rest));
        } else if begins_pair('*', '/', rest) {
            if depth == 0 {
                return Some(tail(tail(rest)));
            }
            depth -= 1;
            rest = tail(tail(rest));
        } else {
            rest = tail(rest);
        }
    }
    None
}
