ghost use Rattle.std.specs.Prelude.{◌≡◌};
ghost use Rattle.std.specs.Option.{option_copied};
ghost use Rattle.al_adt_functions.specs.Rules as rule;

use al_convert::{pointed, same, same_list};
use al_environment::{NamedFunction, Signature};
use al_member_names::OwnFunction;
use al_typed::{Passed, Ty};

pub(crate) fn rule_2_body(first: Option<usize>, k: usize) -> bool
    ensures { result ≡ rule.rule_2_body first k }
{
    match first {
        None => true,
        Some(first) => first == k,
    }
}

fn is_adt(aggregate: u32, ty: &Ty) -> bool
    ensures { result ≡ rule.is_adt aggregate ty.now }
{
    same(false, &Ty::Aggregate(aggregate), ty)
}

fn is_pointed(aggregate: u32, ty: Option<&Ty>) -> bool
    ensures { result ≡ rule.is_pointed aggregate (option_copied ty.entry) }
{
    match ty {
        None => false,
        Some(ty) => is_adt(aggregate, ty),
    }
}

fn is_object(passed: Passed, aggregate: u32, ty: &Ty) -> bool
    ensures { result ≡ rule.is_object passed aggregate ty.now }
{
    match passed {
        Passed::Nothing => false,
        Passed::Address => is_pointed(aggregate, pointed(ty)),
        Passed::Value => is_adt(aggregate, ty),
    }
}

/// Whether the parameters of a definition are the object that it gets and then these.
fn same_parameters(passed: Passed, aggregate: u32, named: &[Ty], list: &[Ty]) -> bool
    ensures { result ≡ rule.same_parameters passed aggregate named.now list.now }
{
    match passed {
        Passed::Nothing => same_list(false, named, list),
        Passed::Address | Passed::Value => match list.split_first() {
            None => false,
            Some((first, rest)) => {
                is_object(passed, aggregate, first) && same_list(false, named, rest)
            }
        },
    }
}

fn agrees(aggregate: u32, f: &NamedFunction, s: &Signature) -> bool
    ensures { result ≡ rule.agrees aggregate f.now s.now }
{
    same(false, &f.signature.returns, &s.returns)
        && same_parameters(
            f.passed,
            aggregate,
            f.signature.parameters.as_slice(),
            s.parameters.as_slice(),
        )
}

pub(crate) fn rule_2_again(aggregate: u32, f: Option<&OwnFunction>, s: &Signature) -> bool
    ensures { result ≡ rule.rule_2_again aggregate (option_copied f.entry) s.now }
{
    match f {
        None => true,
        Some(own) => agrees(aggregate, &own.function, s),
    }
}

pub(crate) fn rule_11_declared(aggregate: u32, f: Option<&OwnFunction>, s: &Signature) -> bool
    ensures { result ≡ rule.rule_11_declared aggregate (option_copied f.entry) s.now }
{
    match f {
        None => false,
        Some(f) => agrees(aggregate, &f.function, s),
    }
}
