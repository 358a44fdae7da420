//! Tests of the public functions of lexer, tree and parser.
#![tactic(auto)]

#[cfg(test)]
mod parser;
#[cfg(test)]
mod tokens;
