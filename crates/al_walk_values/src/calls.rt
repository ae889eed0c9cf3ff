//! What is to be done to evaluate the object and the arguments of a call by name.
ghost use Rattle.std.specs.Prelude.{◌≡◌, ◌≤◌, ◌+◌, [], ◌∷◌, ◌++◌, Some, length, IfOk, IfErr};
ghost use Rattle.al_typed.specs.Layout.{IsLaidOut};
ghost use Rattle.al_typed.specs.declared.expression.TReceiver.TheVariants as receiver;
ghost use Rattle.al_typed.specs.Typed.{place_type, type_of};
ghost use Rattle.al_meaning.specs.Calls as spec;
ghost use Rattle.al_meaning.specs.Here as here;
ghost use Rattle.al_meaning.specs.Items as item;
ghost use Rattle.al_meaning.specs.Places.{path_offset};
ghost use Rattle.al_control.specs.Fits.{Explains};
ghost use Rattle.al_control.specs.Models.{here_of, work_of};
ghost use Rattle.al_variables.specs.Members.{Leads};
ghost use Rattle.al_walk_values.specs.CallForms.{then_of};
ghost use Rattle.al_walk_values.specs.Fits.{CallFits, ObjectFits, ReceiverFits};

use crate::evals::{evaluation, with_evaluated};
use al_base::NoMemory;
use al_control::{Action, Calling, Here, Unmade, Work, with_work};
use al_convert::pointed;
use al_items::{Boxed, Items};
use al_typed::{Passed, TExpr, TPlace, TReceiver, Ty};
use al_variables::part_at;

/// What is done with the arguments of a call of a function by its name.
#[derive(Clone, Copy)]
pub enum Then {
    Invoke,
    InvokeInstead,
    StartProc,
    StartTask,
}

/// The work, for so many values.
fn then_work<'p>(then: Then, function: u32, count: usize) -> Work<'p>
    ensures { work_of result ≡ then_of then function count }
{
    match then {
        Then::Invoke => Work::Calling(Calling::Invoke { function, count }),
        Then::InvokeInstead => Work::Calling(Calling::InvokeInstead { function, count }),
        Then::StartProc => Work::Action(Action::StartProc { function, count }),
        Then::StartTask => Work::Action(Action::StartTask { function, count }),
    }
}

/// An object that is a place is to be found, before the rest.
fn with_place_object<'p>(
    place: &'p Boxed<TPlace>,
    path: &'p Items<u32>,
    passed: Passed,
    h: Here<'p>,
) -> Result<Here<'p>, Unmade>
    requires { IsLaidOut h.program.now.aggregates }
    ensures next { IfOk result (λ r. here_of r ≡ here.with_work (item.Find place.now ∷ item.PassPlace passed (here.member_type h.entry.program.now (place_type place.now) path.now) (path_offset h.entry.program.now (place_type place.now) path.now) ∷ []) (here_of h.entry)) }
    ensures why { IfErr result (λ e. Explains e (Leads h.entry.program.now (place_type place.now) path.now)) }
{
    match part_at(h.program, place.get().ty(), path.as_slice()) {
        None => Err(Unmade::TooLarge),
        Some(part) => {
            let pass = Calling::PassPlace {
                passed,
                ty: part.ty,
                offset: part.offset,
            };
            let h = with_work(h, Work::Calling(pass))?;
            Ok(with_work(h, Work::Find(place.get()))?)
        }
    }
}

/// An object that is a value is to be evaluated, before the rest.
fn with_value_object<'p>(
    value: &'p Boxed<TExpr>,
    path: &'p Items<u32>,
    passed: Passed,
    h: Here<'p>,
) -> Result<Here<'p>, NoMemory>
    ensures { IfOk result (λ r. here_of r ≡ here.with_work (item.Eval value.now ∷ item.PassPart passed (type_of value.now) path.now ∷ []) (here_of h.entry)) }
{
    let value = value.get();
    let pass = Calling::PassPart {
        passed,
        ty: value.ty(),
        path: path.as_slice(),
    };
    let h = with_work(h, Work::Calling(pass))?;
    with_work(h, evaluation(value))
}

/// An object of type `to` that a pointer leads to: the pointer is to be evaluated, before the rest.
fn with_pointed_object<'p>(
    pointer: &'p Boxed<TExpr>,
    to: &'p Ty,
    path: &'p Items<u32>,
    passed: Passed,
    h: Here<'p>,
) -> Result<Here<'p>, Unmade>
    requires { IsLaidOut h.program.now.aggregates }
    ensures next { IfOk result (λ r. here_of r ≡ here.with_work (item.Eval pointer.now ∷ item.PassPointer passed (here.member_type h.entry.program.now to.now path.now) (path_offset h.entry.program.now to.now path.now) ∷ []) (here_of h.entry)) }
    ensures why { IfErr result (λ e. Explains e (Leads h.entry.program.now to.now path.now)) }
{
    match part_at(h.program, to, path.as_slice()) {
        None => Err(Unmade::TooLarge),
        Some(part) => {
            let pass = Calling::PassPointer {
                passed,
                ty: part.ty,
                offset: part.offset,
            };
            let h = with_work(h, Work::Calling(pass))?;
            Ok(with_work(h, evaluation(pointer.get()))?)
        }
    }
}

/// An object behind a pointer, before the rest.
fn with_pointer_object<'p>(
    pointer: &'p Boxed<TExpr>,
    path: &'p Items<u32>,
    passed: Passed,
    h: Here<'p>,
) -> Result<Here<'p>, Unmade>
    requires { IsLaidOut h.program.now.aggregates }
    ensures next { IfOk result (λ r. here_of r ≡ here.with_work (spec.object_work h.entry.program.now (Some (receiver.Pointer pointer.now path.now passed))) (here_of h.entry)) }
    ensures why { IfErr result (λ e. Explains e (ReceiverFits h.entry.program.now (receiver.Pointer pointer.now path.now passed))) }
{
    match pointed(pointer.get().ty()) {
        None => Err(Unmade::TooLarge),
        Some(to) => with_pointed_object(pointer, to, path, passed, h),
    }
}

/// The object before a function's name is to be found or evaluated, before the rest.
fn with_receiver<'p>(receiver: &'p TReceiver, h: Here<'p>) -> Result<Here<'p>, Unmade>
    requires { IsLaidOut h.program.now.aggregates }
    ensures next { IfOk result (λ r. here_of r ≡ here.with_work (spec.object_work h.entry.program.now (Some receiver.now)) (here_of h.entry)) }
    ensures why { IfErr result (λ e. Explains e (ReceiverFits h.entry.program.now receiver.now)) }
{
    match receiver {
        TReceiver::Place {
            place,
            path,
            passed,
        } => with_place_object(place, path, *passed, h),
        TReceiver::Value {
            value,
            path,
            passed,
        } => Ok(with_value_object(value, path, *passed, h)?),
        TReceiver::Pointer {
            pointer,
            path,
            passed,
        } => with_pointer_object(pointer, path, *passed, h),
    }
}

/// The object before a function's name, where there is one.
fn with_object<'p>(receiver: &'p Option<Boxed<TReceiver>>, h: Here<'p>) -> Result<Here<'p>, Unmade>
    requires { IsLaidOut h.program.now.aggregates }
    ensures next { IfOk result (λ r. here_of r ≡ here.with_work (spec.object_work h.entry.program.now receiver.now) (here_of h.entry)) }
    ensures why { IfErr result (λ e. Explains e (ObjectFits h.entry.program.now receiver.now)) }
{
    match receiver {
        None => Ok(h),
        Some(receiver) => with_receiver(receiver.get(), h),
    }
}

/// How many values an object gives to the function.
fn count_passed(passed: Passed) -> usize
    ensures count { result ≡ spec.count_passed passed }
    ensures bound { result ≤ 1 }
{
    match passed {
        Passed::Address | Passed::Value => 1,
        Passed::Nothing => 0,
    }
}

/// How many values an object before a function's name gives to the function.
fn receiver_count(receiver: &TReceiver) -> usize
    ensures count { result ≡ spec.object_count (Some receiver.now) }
    ensures bound { result ≤ 1 }
{
    match receiver {
        TReceiver::Place { passed, .. } => count_passed(*passed),
        TReceiver::Value { passed, .. } => count_passed(*passed),
        TReceiver::Pointer { passed, .. } => count_passed(*passed),
    }
}

/// The same, where there may be none.
fn object_count(receiver: &Option<Boxed<TReceiver>>) -> usize
    ensures count { result ≡ spec.object_count receiver.now }
    ensures bound { result ≤ 1 }
{
    match receiver {
        None => 0,
        Some(receiver) => receiver_count(receiver.get()),
    }
}

/// A call by name: its object and its arguments are to be evaluated, and then so much is to be done, before the rest.
fn with_named_call<'p>(
    function: u32,
    receiver: &'p Option<Boxed<TReceiver>>,
    arguments: &'p [TExpr],
    then: Then,
    h: Here<'p>,
) -> Result<Here<'p>, Unmade>
    requires { IsLaidOut h.program.now.aggregates }
    ensures next { IfOk result (λ r. here_of r ≡ here.with_work (spec.object_work h.entry.program.now receiver.now ++ spec.evaluated arguments.now ++ then_of then function (spec.object_count receiver.now + length arguments.now) ∷ []) (here_of h.entry)) }
    ensures why { IfErr result (λ e. Explains e (ObjectFits h.entry.program.now receiver.now)) }
{
    let count = object_count(receiver) + arguments.len();
    let h = with_evaluated(arguments, then_work(then, function, count), h)?;
    with_object(receiver, h)
}

/// The object and the arguments of a call by name are to be evaluated, and then so much is to be done with them, before
/// the rest. Of another expression nothing is to be done.
pub fn with_call<'p>(e: &'p TExpr, then: Then, h: Here<'p>) -> Result<Here<'p>, Unmade>
    requires { IsLaidOut h.program.now.aggregates }
    ensures next { IfOk result (λ r. here_of r ≡ here.with_work (spec.call_work h.entry.program.now e.now (then_of then)) (here_of h.entry)) }
    ensures why { IfErr result (λ x. Explains x (CallFits h.entry.program.now e.now)) }
{
    match e {
        TExpr::Call {
            function,
            receiver,
            arguments,
            ..
        } => with_named_call(*function, receiver, arguments.as_slice(), then, h),
        _ => Ok(h),
    }
}
