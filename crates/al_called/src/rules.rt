//! The rule.
ghost use Rattle.std.specs.Prelude.{◌≡◌};
ghost use Rattle.std.specs.Option.{option_copied};
ghost use Rattle.al_called.specs.Rules as rule;

use al_items::Items;

fn is_written(text: &[u8], name: Option<&Items<u8>>) -> bool
    ensures { result ≡ rule.is_written text.now (option_copied name.entry) }
{
    match name {
        None => false,
        Some(name) => name.as_slice() == text,
    }
}

/// Whether the name of that number is `print` or `terminate`.
#[tactic(auto, unfolding(crate::specs::Rules::is_built_in))]
fn is_built_in(names: &[Items<u8>], name: u32) -> bool
    ensures { result ≡ rule.is_built_in names.now name }
{
    let name = names.get(name as usize);
    is_written(b"print".as_slice(), name) || is_written(b"terminate".as_slice(), name)
}

/// Rule 9 of a name whose value is used.
pub(crate) fn rule_9_is_value(names: &[Items<u8>], name: u32) -> bool
    ensures { result ≡ rule.rule_9_is_value names.now name }
{
    !is_built_in(names, name)
}
