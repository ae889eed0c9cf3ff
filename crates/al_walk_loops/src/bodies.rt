//! Bodies of statements, put before the rest.
ghost use Rattle.std.specs.Prelude.{◌≡◌, ◌∷◌, ◌++◌, [], map, IfOk, OnOk};
ghost use Rattle.al_meaning.specs.Here as here;
ghost use Rattle.al_meaning.specs.Parts as parts;
ghost use Rattle.al_control.specs.Models.{here_of, item_of};
ghost use Rattle.al_walk_loops.specs.BodyParts as spec;

use al_base::NoMemory;
use al_control::{Here, Item, Stack, to_do, with_item};
use al_typed::TStmt;
use std::alloc::Global;

/// Whether a statement is the label of a case.
fn is_label(s: &TStmt) -> bool
    ensures { result ≡ spec.is_label s.now }
{
    match s {
        TStmt::Case { .. } | TStmt::Default | TStmt::AltCase { .. } => true,
        _ => false,
    }
}

/// A statement of a body, before the other items. The label of a case is none.
fn put_statement<'p>(
    alloc: Global,
    s: &'p TStmt,
    items: &mut Stack<Item<'p>>,
) -> Result<(), NoMemory>
    ensures { OnOk result (map item_of items.new ≡ spec.statement_in s.now ++ map item_of items.old) }
{
    if is_label(s) {
        Ok(())
    } else {
        let item = to_do(alloc, s)?;
        items.push(item)
    }
}

/// The statements of a body, before the other items. They are put from the last to the first.
pub fn put_statements<'p>(
    alloc: Global,
    body: &'p [TStmt],
    items: &mut Stack<Item<'p>>,
) -> Result<(), NoMemory>
    ensures { OnOk result (map item_of items.new ≡ spec.statements_in body.now ++ map item_of items.old) }
{
    for k in (0..body.len()).rev() {
        put_statement(alloc, &body[k], items)?;
    }
    Ok(())
}

/// The statements of a body, before the rest.
pub fn with_body<'p>(alloc: Global, body: &'p [TStmt], h: Here<'p>) -> Result<Here<'p>, NoMemory>
    ensures { IfOk result (λ r. here_of r ≡ here.with_items (spec.statements_in body.now) (here_of h.entry)) }
{
    let mut h = h;
    put_statements(alloc, body, &mut h.frame.items)?;
    Ok(h)
}

/// A statement, before the rest.
pub fn with_statement<'p>(alloc: Global, s: &'p TStmt, h: Here<'p>) -> Result<Here<'p>, NoMemory>
    ensures { IfOk result (λ r. here_of r ≡ here.with_items (parts.to_do s.now ∷ []) (here_of h.entry)) }
{
    let item = to_do(alloc, s)?;
    with_item(h, item)
}
