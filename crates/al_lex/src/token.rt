use crate::kind::TokenKind;
use al_base::Place;
use std::marker::Model;

/// A token of a text: the bytes from `from` up to, and without, `to`, which begin at `place`.
#[derive(Clone, Copy, Debug, PartialEq, Eq)]
pub struct Token {
    pub kind: TokenKind,
    /// The number of the name's bytes among those of the text, from 0, in the order first seen. It is 0 for a token
    /// that is no name.
    pub name: u32,
    pub from: u32,
    pub to: u32,
    pub place: Place,
}

/// The tokens of a text with its bytes. Contracts see the two lists. The last token, and no other, is the End token.
#[derive(Debug, Drop)]
pub struct Tokens {
    list: Vec<Token>,
    text: Vec<u8>,
}

impl Model for Tokens {
    ghost use Rattle.al_lex.specs.TokenList.{TokenList, IsTokenList};

    ghost Value = { TokenList };

    ghost view = { λ t. record { list = t.list.items; text = t.text.items } };

    ghost invariant = { λ t. IsTokenList (record { list = t.list.items; text = t.text.items }) };
}

impl Tokens {
    ghost use Rattle.std.specs.Prelude.{◌≡◌, ◌<◌, length};
    ghost use Rattle.al_lex.specs.TokenList.{IsTokenList, bytes_at};

    /// The tokens of this text, the End token last.
    pub(crate) fn new(list: Vec<Token>, text: Vec<u8>) -> Tokens
        requires { IsTokenList (record { list = list.items; text = text.items }) }
        ensures list { result.list ≡ list.items }
        ensures text { result.text ≡ text.items }
    {
        Tokens { list, text }
    }

    pub fn as_slice(&self) -> &[Token]
        ensures value { result.now ≡ self.now.list }
        ensures is { IsTokenList self.now }
    {
        self.list.as_slice()
    }

    /// The whole text.
    pub fn text(&self) -> &[u8]
        ensures { result.now ≡ self.now.text }
    {
        self.text.as_slice()
    }

    /// How many tokens there are. There is at least the End token.
    pub fn len(&self) -> usize
        ensures value { result ≡ length self.now.list }
        ensures some { 0 < result }
    {
        self.list.len()
    }

    /// The bytes of the token of this number. Tokens are counted from 0.
    pub fn bytes(&self, number: usize) -> &[u8]
        requires { number < length self.now.list }
        ensures { result.now ≡ bytes_at self.now number }
    {
        let token = self.list[number];
        &self.text[token.from as usize..token.to as usize]
    }
}
