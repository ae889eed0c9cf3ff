use al_lex::lex;
use al_parse_stmt::parse;
use al_tree::Tree;
use std::alloc::Global;
use std::process::Abort;
use std::test::Fail;

/// The tree of a text, which has one.
pub fn tree_of(rt: &impl Abort, alloc: Global, text: &[u8]) -> Result<Option<Tree>, Fail> {
    assert!(rt; text.len() <= 1 << 20);
    let toks = lex(alloc, text)?;
    let tree = parse(alloc, &toks).ok();
    assert!(rt; tree.is_some());
    Ok(tree)
}
