//! What single tokens are in expressions.
ghost use Rattle.std.specs.Prelude.{◌≡◌};
ghost use Rattle.al_tree.specs.Words as words;
ghost use Rattle.al_parse_expr.specs.Parse as spec;

use al_lex::TokenKind;
use al_parse_type::sees_other_name;
use al_tree::{Access, AssignOp, BinaryOp, Cursor, PostfixOp, TypeNames, UnaryOp};

pub(crate) fn prefix_operator(kind: TokenKind) -> Option<UnaryOp>
    ensures { result ≡ words.prefix_operator kind }
{
    match kind {
        TokenKind::Plus => Some(UnaryOp::Plus),
        TokenKind::Minus => Some(UnaryOp::Minus),
        TokenKind::Not => Some(UnaryOp::Not),
        TokenKind::Tilde => Some(UnaryOp::Complement),
        TokenKind::Star => Some(UnaryOp::Indirect),
        TokenKind::And => Some(UnaryOp::Address),
        TokenKind::PlusPlus => Some(UnaryOp::Increment),
        TokenKind::MinusMinus => Some(UnaryOp::Decrement),
        TokenKind::LeftArrow => Some(UnaryOp::Receive),
        TokenKind::Question => Some(UnaryOp::CanReceive),
        TokenKind::Zerox => Some(UnaryOp::Zerox),
        _ => None,
    }
}

pub(crate) fn postfix_operator(kind: TokenKind) -> Option<PostfixOp>
    ensures { result ≡ words.postfix_operator kind }
{
    match kind {
        TokenKind::PlusPlus => Some(PostfixOp::Increment),
        TokenKind::MinusMinus => Some(PostfixOp::Decrement),
        TokenKind::Question => Some(PostfixOp::CanSend),
        _ => None,
    }
}

pub(crate) fn access(kind: TokenKind) -> Option<Access>
    ensures { result ≡ words.access kind }
{
    match kind {
        TokenKind::Dot => Some(Access::Dot),
        TokenKind::Arrow => Some(Access::Arrow),
        _ => None,
    }
}

/// How loosely a binary operator binds; 11 for what is none. The level 3 is that of `::`, which is no binary operator.
fn level(kind: TokenKind) -> u8
    ensures { result ≡ words.level kind }
{
    match kind {
        TokenKind::Star | TokenKind::Slash | TokenKind::Percent => 0,
        TokenKind::Plus | TokenKind::Minus => 1,
        TokenKind::ShiftLeft | TokenKind::ShiftRight => 2,
        TokenKind::Less | TokenKind::Greater => 4,
        TokenKind::LessEqual | TokenKind::GreaterEqual => 4,
        TokenKind::EqualEqual | TokenKind::NotEqual => 5,
        TokenKind::And => 6,
        TokenKind::Caret => 7,
        TokenKind::Or => 8,
        TokenKind::AndAnd => 9,
        TokenKind::OrOr => 10,
        _ => 11,
    }
}

fn operation(kind: TokenKind) -> Option<BinaryOp>
    ensures { result ≡ words.operation kind }
{
    match kind {
        TokenKind::Star => Some(BinaryOp::Multiply),
        TokenKind::Slash => Some(BinaryOp::Divide),
        TokenKind::Percent => Some(BinaryOp::Remainder),
        TokenKind::Plus => Some(BinaryOp::Add),
        TokenKind::Minus => Some(BinaryOp::Subtract),
        TokenKind::ShiftLeft => Some(BinaryOp::ShiftLeft),
        TokenKind::ShiftRight => Some(BinaryOp::ShiftRight),
        TokenKind::Less => Some(BinaryOp::Less),
        TokenKind::Greater => Some(BinaryOp::Greater),
        TokenKind::LessEqual => Some(BinaryOp::LessEqual),
        TokenKind::GreaterEqual => Some(BinaryOp::GreaterEqual),
        TokenKind::EqualEqual => Some(BinaryOp::Equal),
        TokenKind::NotEqual => Some(BinaryOp::NotEqual),
        TokenKind::And => Some(BinaryOp::BitAnd),
        TokenKind::Caret => Some(BinaryOp::BitXor),
        TokenKind::Or => Some(BinaryOp::BitOr),
        TokenKind::AndAnd => Some(BinaryOp::And),
        TokenKind::OrOr => Some(BinaryOp::Or),
        _ => None,
    }
}

/// The binary operator of that level.
pub(crate) fn operator(at: u8, kind: TokenKind) -> Option<BinaryOp>
    ensures { result ≡ words.operator at kind }
{
    if level(kind) == at {
        operation(kind)
    } else {
        None
    }
}

pub(crate) fn assign_operator(kind: TokenKind) -> Option<AssignOp>
    ensures { result ≡ words.assign_operator kind }
{
    match kind {
        TokenKind::Equal => Some(AssignOp::Assign),
        TokenKind::PlusEqual => Some(AssignOp::Compound(BinaryOp::Add)),
        TokenKind::MinusEqual => Some(AssignOp::Compound(BinaryOp::Subtract)),
        TokenKind::StarEqual => Some(AssignOp::Compound(BinaryOp::Multiply)),
        TokenKind::SlashEqual => Some(AssignOp::Compound(BinaryOp::Divide)),
        TokenKind::PercentEqual => Some(AssignOp::Compound(BinaryOp::Remainder)),
        TokenKind::AndEqual => Some(AssignOp::Compound(BinaryOp::BitAnd)),
        TokenKind::OrEqual => Some(AssignOp::Compound(BinaryOp::BitOr)),
        TokenKind::CaretEqual => Some(AssignOp::Compound(BinaryOp::BitXor)),
        TokenKind::ShiftLeftEqual => Some(AssignOp::Compound(BinaryOp::ShiftLeft)),
        TokenKind::ShiftRightEqual => Some(AssignOp::Compound(BinaryOp::ShiftRight)),
        TokenKind::LeftArrowEqual => Some(AssignOp::Send),
        _ => None,
    }
}

/// Whether an expression may begin with the next token.
#[tactic(auto, unfolding(crate::specs::Parse::begins_value))]
pub fn begins_value(types: &TypeNames, tokens: &Cursor<'_>) -> bool
    ensures { result ≡ spec.begins_value types.now tokens.now }
{
    tokens.next_is(TokenKind::Number)
        || tokens.next_is(TokenKind::Char)
        || tokens.next_is(TokenKind::Text)
        || tokens.next_is(TokenKind::Nil)
        || tokens.next_is(TokenKind::LeftParen)
        || tokens.next_is(TokenKind::Sizeof)
        || prefix_operator(tokens.peek()).is_some()
        || sees_other_name(types, tokens)
}
