//! The observers of tokens.

use std::test::Fail;
use tb_lex::{Keyword, Punctuation, Token, lex};

/// Whether the tokens of `fn` and `+=` are what they are, and nothing else.
fn are_known(tokens: &[Token]) -> bool {
    match tokens {
        [word, mark] => {
            word.is_keyword(Keyword::Fn)
                && !word.is_keyword(Keyword::For)
                && !word.is_punctuation(Punctuation::Plus)
                && mark.is_punctuation(Punctuation::PlusEq)
                && !mark.is_punctuation(Punctuation::Plus)
                && !mark.is_keyword(Keyword::Fn)
        }
        _ => false,
    }
}

#[test]
fn kinds(rt: HostRuntime) -> Result<(), Fail> {
    let Ok(tokens) = lex(rt.alloc(), b"fn +=") else {
        return Err("no tokens".into());
    };
    assert!(rt; are_known(tokens.list.as_slice()));
    Ok(())
}
