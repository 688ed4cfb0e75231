//! Tests of the observers of tokens and trees. The lexer and the parser are tested by the cases of `tb_front_cases`.
#![tactic(auto)]

#[cfg(test)]
mod expressions;
#[cfg(test)]
mod tokens;
