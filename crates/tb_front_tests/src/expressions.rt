//! The observers of expressions.

use std::test::Fail;
use tb_ast::{BinaryOp, Form};
use tb_expr::expression;
use tb_lex::lex;
use tb_syntax::Cursor;

#[test]
fn forms(rt: HostRuntime) -> Result<(), Fail> {
    let alloc = rt.alloc();
    let Ok(tokens) = lex(alloc, b"a * b - c") else {
        return Err("no tokens".into());
    };
    let Ok((e, _)) = expression(Cursor::new(tokens.list.as_slice()), alloc, 9) else {
        return Err("not read".into());
    };
    assert!(rt; matches!(e.get().form(), Form::Binary(BinaryOp::Sub)));
    Ok(())
}
