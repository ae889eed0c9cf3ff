//! Lists and boxes that contracts see as plain values, for tokens, trees, programs and actions.
//!
//! To a contract an `Items<T>` is the list of its elements and a `Boxed<T>` is the value in it. Neither
//! shows an address or a capacity, so a contract may say that a value made of them equals (`≡`) what a
//! definition of `specs/` computes. A `Vec` or a `Box` in such a type would stand in the way.
//!
//! # How a tree is declared
//!
//! A single child is a `Boxed<Expr>`, an optional one an `Option<Boxed<Expr>>`, and children in a row are an
//! `Items<Expr>`. Each type of the cycle has one `#[cycle(tree)]`, and derives `Debug` and `Drop`:
//!
//! ```text
//! #[cycle(tree)]
//! #[derive(Debug, Drop)]
//! pub enum Expr { Num(u32), Add(Boxed<Expr>, Boxed<Expr>), Call(u32, Items<Expr>) }
//! ```
//!
//! In `specs/` a tree is built by the plain names, which take values and lists: `Add (Num 1) (Call 3 (Num 1 ∷ []))`.
//! It is taken apart by the primed ones, in which each box and each list is a shape and a row of children. A
//! `pattern abbrev` for each case hides the shape and the row of one, so that definitions read like the source:
//!
//! ```text
//! pattern abbrev pub add : Expr → Expr → Expr
//! add a b = Add' tt (more_of-Expr a end_of-Expr) tt (more_of-Expr b end_of-Expr)
//!
//! abbrev mutual
//!   pub nodes : Expr → ℕ
//!   nodes (Num n) = 1
//!   nodes (add a b) = 1 + (nodes a + nodes b)
//!   nodes (Call' f _ row) = 1 + row_nodes row
//!
//!   pub row_nodes : {m : _} → Row_of-Expr m → ℕ
//!   row_nodes end_of-Expr = 0
//!   row_nodes (more_of-Expr e rest) = nodes e + row_nodes rest
//! ```
//!
//! An optional child is a `Held-Expr-If-2` (named by the case and the field's number), with `None'` and
//! `Some' _ (more_of-Expr a end_of-Expr)`. `rt check --generated DIR` prints the names.
//!
//! For each definition and case one equation ties the two spellings. It holds by `refl` under an `unfolding` line,
//! which the check's note on the refused `refl` spells out:
//!
//! ```text
//! pub nodes-Add : (a b : Expr) → nodes (Add a b) ≡ 1 + (nodes a + nodes b)
//! unfolding Rattle.NAME.specs.declared.tree.Expr.TheBlock.hidden-the_row-Expr-0 denote.Hole.Carrier.hidden
//! nodes-Add a b = refl
//! ```
//!
//! In code a child is read by `a.get()`, and a row by a function over `&[Expr]` that gets `args.as_slice()`. Where
//! the check asks for the measure of such a call, `search (rules, the_lemmas)` shows it, with `the_lemmas` from
//! `specs.declared.tree.Expr`.
#![tactic(auto)]

mod boxed;
mod items;

pub use boxed::Boxed;
pub use items::Items;

#[cfg(test)]
mod tests;
