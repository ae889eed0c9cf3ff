//! Expressions that are constants or the same as a part of them, operators on one value, and moves of pointers.
ghost use Rattle.std.specs.Prelude.{◌≡◌, ◌<◌, false, IfNone, IfOk, IfSome};
ghost use Rattle.al_typed.specs.Layout.{IsLaidOut};
ghost use Rattle.al_typed.specs.declared.expression.TExpr.{size-TExpr};
ghost use Rattle.al_typed.specs.declared.expression.UnaryOp.TheVariants as unary;
ghost use Rattle.al_lower_forms.specs.Same as spec;
ghost use Rattle.al_lower_base.specs.Spots.{spot_of};

use crate::uses::Use;
use al_base::NoMemory;
use al_lower_base::{Spot, is_long, stays};
use al_lower_operands::folded;
use al_typed::{Movement, TExpr, Ty, UnaryOp};
use al_variables::kind_of;

/// Whether a pointer moves back.
pub fn is_back(movement: Movement) -> bool
    ensures { result ≡ spec.is_back movement }
{
    match movement {
        Movement::Forward | Movement::CountFirst => false,
        Movement::Back => true,
    }
}

/// How the value is used to which an operator of a type is applied; none for `+`, which leaves it as it is.
pub fn sign_of(ty: &Ty, op: UnaryOp) -> Option<Use<'_>>
    ensures none { IfNone result (op ≡ unary.Plus) }
    ensures some { IfSome result (λ how. spec.Signs ty.now op how) }
{
    match op {
        UnaryOp::Plus => None,
        UnaryOp::Minus => Some(Use::Less { ty, bits: 0 }),
        UnaryOp::Complement => {
            if is_long(kind_of(ty)) {
                Some(Use::Less {
                    ty,
                    bits: 0xffff_ffff_ffff_ffff,
                })
            } else {
                Some(Use::Complement)
            }
        }
    }
}

/// The part of an expression whose operations are the same, unless it is a constant: that of `+`, and of a conversion that
/// changes no bits.
fn same_part(e: &TExpr) -> Option<&TExpr>
    ensures same { IfSome result (λ of. spec.Same e.now of.now) }
    ensures part { IfSome result (λ of. size-TExpr of.now < size-TExpr e.now) }
    ensures none { IfNone result (spec.is_same e.now ≡ false) }
{
    match e {
        TExpr::Unary { op, of, .. } => match op {
            UnaryOp::Plus => Some(of.get()),
            UnaryOp::Minus | UnaryOp::Complement => None,
        },
        TExpr::Cast { ty, of } | TExpr::Convert { ty, of } => {
            let of = of.get();
            if stays(of.ty(), ty) { Some(of) } else { None }
        }
        _ => None,
    }
}

/// How the operations of an expression are found.
#[derive(Clone, Copy)]
pub enum Form<'a> {
    /// They are those of a constant with these bits.
    Folded(u64),
    /// They are those of a part.
    Part(&'a TExpr),
    /// They are made by what the expression is.
    Open,
}

/// How the operations of an expression are found.
pub fn form_of<'a>(s: Spot<'_>, e: &'a TExpr) -> Result<Form<'a>, NoMemory>
    requires { IsLaidOut s.program.now.aggregates }
    ensures made { IfOk result (λ form. spec.IsForm (spot_of s.entry) e.now form) }
    ensures smaller { IfOk result (λ form. spec.IsSmaller e.now form) }
{
    match folded(s, e)? {
        Some(bits) => Ok(Form::Folded(bits)),
        None => match same_part(e) {
            Some(of) => Ok(Form::Part(of)),
            None => Ok(Form::Open),
        },
    }
}
