// What the checks are good for.

ghost use Rattle.std.specs.Prelude.{◌≡◌, true};
ghost use Rattle.al_ir.specs.declared.ir.Ir.{Ir};
ghost use Rattle.al_ir.specs.Bounds.{IsBounded};
ghost use Rattle.al_ir_bounds.specs.Checks as checks;

/// A program that passes the checks keeps the bounds of operations.
pub fn checked_programs_are_bounded()
    ensures { (ir : Ir) → checks.is_bounded ir ≡ true → IsBounded ir }
{}
