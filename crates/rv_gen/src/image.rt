// The image of a program.

ghost use Rattle.std.specs.Prelude.{◌≡◌, ◌≤◌, [], IfOk, length};
ghost use Rattle.al_ir.specs.Bounds.{IsBounded};
ghost use Rattle.rv_form.specs.Program.{places_by, reaches_from, nowhere};
ghost use Rattle.rv_emit_ops.specs.Plans.{places_in, layout_in, AreNear};
ghost use Rattle.rv_gen.specs.Emitting.{AreFound, IsEmitted};
ghost use Rattle.rv_gen.specs.Generating.{HaveHomes, HasCode, IsGenerated};

use crate::body::functions;
use crate::contents::{items_of, rows_of, sizes_of};
use crate::emitted::Emitted;
use crate::head::{dispatchers, routines};
use al_base::NoMemory;
use al_ir::Ir;
use al_items::Items;
use rv_emit::pieces::call;
use rv_emit_ops::plan::Plan;
use rv_encode::words_of;
use rv_isa::image::{Contents, Image};
use rv_regs::{Homes, place};
use std::alloc::Global;

/// The homes of the slots of all functions.
fn homes(alloc: Global, ir: &Ir) -> Result<Items<Homes>, NoMemory>
    requires { length ir.now.functions ≤ 65536 }
    ensures count { IfOk result (λ homes. length homes ≡ length ir.now.functions) }
    ensures homes { IfOk result (λ homes. HaveHomes ir.now homes) }
{
    let mut homes = Items::new(alloc);
    for f in 0..ir.functions.len() {
        homes.push(place(alloc, ir, f as u32)?)?;
    }
    Ok(homes)
}

/// All code of a program, by a plan.
#[tactic(auto, using(crate::proofs::Bounded::small_of))]
fn emit(alloc: Global, ir: &Ir, plan: &Plan) -> Result<Emitted, NoMemory>
    requires bounded { IsBounded ir.now }
    requires near { AreNear plan.now }
    ensures emitted { IfOk result (λ e. IsEmitted (layout_in ir.now plan.now) ir.now e) }
    ensures found { IfOk result (λ e. AreFound e) }
{
    let mut out = Emitted {
        code: Vec::new(alloc),
        lines: Items::new(alloc),
        entries: Items::new(alloc),
        starts: Items::new(alloc),
        dispatchers: Items::new(alloc),
        routines: Items::new(alloc),
        reaches: Items::new(alloc),
    };
    call(&mut out.code, 1)?;
    routines(&mut out.code, &mut out.routines, alloc, ir)?;
    dispatchers(&mut out.code, &mut out.dispatchers, alloc, ir, plan)?;
    functions(&mut out, alloc, ir, plan)?;
    Ok(out)
}

/// A plan by which all jumps go far.
fn far_plan(alloc: Global, ir: &Ir) -> Result<Plan, NoMemory>
    requires { length ir.now.functions ≤ 65536 }
    ensures homes { IfOk result (λ plan. HaveHomes ir.now plan.homes) }
    ensures count { IfOk result (λ plan. length plan.homes ≡ length ir.now.functions) }
    ensures places { IfOk result (λ plan. places_in plan ≡ nowhere []) }
    ensures near { IfOk result (λ plan. AreNear plan) }
{
    Ok(Plan {
        homes: homes(alloc, ir)?,
        entries: Items::new(alloc),
        starts: Items::new(alloc),
        dispatchers: Items::new(alloc),
        routines: Items::new(alloc),
        reaches: Items::new(alloc),
    })
}

/// The plan with the reaches that jumps have by it.
fn reaching(alloc: Global, ir: &Ir, plan: Plan) -> Result<Plan, NoMemory>
    requires bounded { IsBounded ir.now }
    requires near { AreNear plan }
    ensures homes { IfOk result (λ next. next.homes ≡ plan.homes) }
    ensures places { IfOk result (λ next. places_in next ≡ nowhere (reaches_from (layout_in ir.now plan) 0 ir.now.functions)) }
    ensures near { IfOk result (λ next. AreNear next) }
{
    let Emitted { reaches, .. } = emit(alloc, ir, &plan)?;
    let Plan { homes, .. } = plan;
    Ok(Plan {
        homes,
        entries: Items::new(alloc),
        starts: Items::new(alloc),
        dispatchers: Items::new(alloc),
        routines: Items::new(alloc),
        reaches,
    })
}

/// The plan with the places that things have by it.
fn placed(alloc: Global, ir: &Ir, plan: Plan) -> Result<Plan, NoMemory>
    requires bounded { IsBounded ir.now }
    requires near { AreNear plan }
    ensures homes { IfOk result (λ next. next.homes ≡ plan.homes) }
    ensures places { IfOk result (λ next. places_in next ≡ places_by (layout_in ir.now plan) plan.reaches ir.now) }
    ensures near { IfOk result (λ next. AreNear next) }
{
    let Emitted {
        entries,
        starts,
        dispatchers,
        routines,
        ..
    } = emit(alloc, ir, &plan)?;
    let Plan { homes, reaches, .. } = plan;
    Ok(Plan {
        homes,
        entries,
        starts,
        dispatchers,
        routines,
        reaches,
    })
}

/// What the image has by a plan of where all stands.
fn contents_of(alloc: Global, ir: &Ir, plan: &Plan) -> Result<Contents, NoMemory>
    requires bounded { IsBounded ir.now }
    requires near { AreNear plan.now }
    ensures { IfOk result (λ contents. HasCode (layout_in ir.now plan.now) ir.now contents) }
{
    let emitted = emit(alloc, ir, plan)?;
    let words = words_of(alloc, emitted.code.as_slice())?;
    let Emitted { lines, .. } = emitted;
    Ok(Contents {
        code: words,
        functions: rows_of(alloc, ir, plan)?,
        globals: sizes_of(alloc, ir)?,
        items: items_of(alloc, ir)?,
        privates: 4 * ir.privates,
        main: ir.main,
        lines,
    })
}

/// The image of a program of operations. Where its code would have more than 2^23 words there is no memory for it.
pub fn generate(alloc: Global, ir: &Ir) -> Result<Image, NoMemory>
    requires { IsBounded ir.now }
    ensures { IfOk result (λ image. IsGenerated ir.now image) }
{
    let far = far_plan(alloc, ir)?;
    let near = reaching(alloc, ir, far)?;
    let plan = placed(alloc, ir, near)?;
    let contents = contents_of(alloc, ir, &plan)?;
    match Image::check(contents) {
        Ok(image) => Ok(image),
        Err(_) => Err(NoMemory),
    }
}
