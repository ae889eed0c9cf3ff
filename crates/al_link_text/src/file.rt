ghost use Rattle.std.specs.Prelude.{◌≡◌};
ghost use Rattle.al_link_text.specs.Files.{own_tokens};

use al_lex::{Token, Tokens};
use al_scope::Scopes;
use al_tree::Tree;

/// A file that was read, alone.
#[derive(Drop)]
pub struct File {
    pub tokens: Tokens,
    pub tree: Tree,
    /// What the file's names stand for.
    pub scopes: Scopes,
}

impl File {
    /// The tokens without the End token.
    pub fn own_tokens(&self) -> &[Token]
        ensures { result.now ≡ own_tokens self.now }
    {
        let list = self.tokens.as_slice();
        &list[..list.len().saturating_sub(1)]
    }
}
