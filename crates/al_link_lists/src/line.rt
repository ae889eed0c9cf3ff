ghost use Rattle.std.specs.Prelude.{◌≡◌, ◌≢◌, ◌+◌, ◌<◌, ◌==◌, ◌++◌, ◌∷◌, ℕ, List, length, take, drop, All, IfSome, IfNone, IsSomeAnd};
ghost use Rattle.std.specs.List.{position_from};
ghost use Rattle.al_link_lists.specs.Lists.{IsFileName, HasNoLine, line_feed};

/// The most bytes of a file name.
const LONGEST: usize = 255;

/// The place of the first such byte.
fn place_of(bytes: &[u8], at: u8) -> Option<usize>
    ensures place { result ≡ position_from (λ byte. byte == at) 0 bytes.now }
    ensures within { IfSome result (λ place. place < length bytes.now) }
    ensures found { IfSome result (λ place. bytes.now ≡ take place bytes.now ++ at ∷ drop (place + 1) bytes.now) }
    ensures first { IfSome result (λ place. All (λ byte. byte ≢ at) (take place bytes.now)) }
{
    bytes.iter().position(|byte| *byte == at)
}

/// What is before the first such byte, and what is after it.
fn cut(bytes: &[u8], at: u8) -> Option<(&[u8], &[u8])>
    ensures parts { IfSome result (λ parts. bytes.now ≡ parts.0.now ++ at ∷ parts.1.now) }
    ensures first { IfSome result (λ parts. All (λ byte. byte ≢ at) parts.0.now) }
    ensures only { (a b : List ℕ) → All (λ byte. byte ≢ at) a → bytes.now ≡ a ++ at ∷ b → IsSomeAnd result (λ parts. (parts.0.now ≡ a) × (parts.1.now ≡ b)) }
{
    let place = place_of(bytes, at)?;
    Some((&bytes[..place], &bytes[place + 1..]))
}

/// The name on the first line, where that line is right, and what stands behind it.
pub(crate) fn first_line(text: &[u8]) -> Option<(&str, &[u8])>
    ensures name { IfSome result (λ r. IsFileName r.0.now) }
    ensures line { IfSome result (λ r. text.now ≡ r.0.now ++ line_feed ∷ r.1.now) }
    ensures none { IfNone result (HasNoLine text.now) }
{
    let (name, more) = cut(text, b'\n')?;
    if name.is_empty() || name.len() > LONGEST {
        return None;
    }
    match std::str::from_utf8(name) {
        Ok(name) => Some((name, more)),
        Err(_) => None,
    }
}
