//! Laws of the definitions that the contracts cite.

ghost use Rattle.std.specs.Prelude.{◌≡◌, ℕ, ◌%◌, ◌^◌, ◌-◌, Some, IsTrue};
ghost use Rattle.al_base.specs.Arith.{applied, wrapped, width_of, is_signed, integer_of};
ghost use Rattle.al_base.specs.declared.arith.Kind.{Kind};
ghost use Rattle.al_base.specs.declared.arith.Op.TheVariants as Op;

/// The integer that bits stand for has those bits.
pub fn integers_keep_their_bits()
    ensures { (kind : Kind) (n : ℕ) → wrapped (width_of kind) (integer_of kind n) ≡ n % 2 ^ width_of kind }
{}

/// The least number of a kind, divided by -1, gives itself and leaves 0.
pub fn least_over_minus_one()
    ensures quotient { (kind : Kind) → IsTrue (is_signed kind) →
        applied Op.Div kind (2 ^ (width_of kind - 1)) (2 ^ width_of kind - 1) ≡ Some (2 ^ (width_of kind - 1)) }
    ensures rest { (kind : Kind) → IsTrue (is_signed kind) →
        applied Op.Rem kind (2 ^ (width_of kind - 1)) (2 ^ width_of kind - 1) ≡ Some 0 }
{}
