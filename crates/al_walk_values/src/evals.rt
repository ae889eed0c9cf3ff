//! Expressions: what is to be done to evaluate one.
ghost use Rattle.std.specs.Prelude.{◌≡◌, ◌<◌, ◌^◌, [], ◌∷◌, ◌++◌, length, slice_index, IfOk, IfErr};
ghost use Rattle.al_base.specs.Arith.{width_of};
ghost use Rattle.std.specs.List.{flat_map};
ghost use Rattle.al_typed.specs.Layout.{IsLaidOut};
ghost use Rattle.al_typed.specs.Typed.{place_type, type_of};
ghost use Rattle.al_typed.specs.declared.expression.TExpr.TheVariants as expr;
ghost use Rattle.al_meaning.specs.Calls as calls;
ghost use Rattle.al_meaning.specs.Evaluate as spec;
ghost use Rattle.al_meaning.specs.Here as step;
ghost use Rattle.al_meaning.specs.Items as item;
ghost use Rattle.al_meaning.specs.Places.{function_address, text_place};
ghost use Rattle.al_meaning.specs.Shown.{kind_of};
ghost use Rattle.al_meaning.specs.Words.{integer_words};
ghost use Rattle.al_control_values.specs.Fits.{IsSmall};
ghost use Rattle.al_control.specs.Fits.{Explains};
ghost use Rattle.al_control.specs.Models.{action_of, gather_of, here_of, next_of, operator_of, storage_of, value_of, work_of};
ghost use Rattle.al_walk_values.specs.Fits.{CallFits, Fits};

use crate::calls::{Then, with_call};
use al_base::NoMemory;
use al_control::{
    Action, Calling, Here, Next, Operator, Storage, TargetStage, Unmade, ValueStage, Work, does,
    does_three, does_two, gives, moves, with_work,
};
use al_control_values::{integer_words, one_word};
use al_convert::is_void;
use al_items::{Boxed, Items};
use al_typed::{Change, Logic, Movement, TExpr, TPlace, TTarget, Ty, UnaryOp};
use al_variables::{has_room, kind_of, pointee_size, small_size, text_place, word_at, word_of};
use std::alloc::Global;

/// An expression that is to be evaluated.
pub fn evaluation<'p>(e: &'p TExpr) -> Work<'p>
    ensures { work_of result ≡ item.Eval e.now }
{
    Work::Value(ValueStage::Eval, e)
}

/// Evaluations of expressions, before the rest. They are put from the last to the first.
pub fn with_evaluations<'p>(es: &'p [TExpr], h: Here<'p>) -> Result<Here<'p>, NoMemory>
    ensures { IfOk result (λ r. here_of r ≡ step.with_work (calls.evaluated es.now) (here_of h.entry)) }
{
    let mut h = h;
    let mut rest = es;
    while let Some((e, front)) = rest.split_last() {
        h = with_work(h, evaluation(e))?;
        rest = front;
    }
    Ok(h)
}

/// Evaluations of expressions, and then work, before the rest.
pub fn with_evaluated<'p>(
    es: &'p [TExpr],
    work: Work<'p>,
    h: Here<'p>,
) -> Result<Here<'p>, NoMemory>
    ensures { IfOk result (λ r. here_of r ≡ step.with_work (calls.evaluated es.now ++ work_of work.entry ∷ []) (here_of h.entry)) }
{
    let h = with_work(h, work)?;
    with_evaluations(es, h)
}

/// An expression whose value is dropped, where it has one, before the rest.
pub fn with_dropped<'p>(e: &'p TExpr, h: Here<'p>) -> Result<Here<'p>, NoMemory>
    ensures { IfOk result (λ r. here_of r ≡ step.with_work (spec.and_dropped e.now) (here_of h.entry)) }
{
    if is_void(e.ty()) {
        with_work(h, evaluation(e))
    } else {
        let h = with_work(h, Work::Forget)?;
        with_work(h, evaluation(e))
    }
}

/// Expressions whose values are dropped, before the rest.
fn with_all_dropped<'p>(es: &'p [TExpr], h: Here<'p>) -> Result<Here<'p>, NoMemory>
    ensures { IfOk result (λ r. here_of r ≡ step.with_work (flat_map spec.and_dropped es.now) (here_of h.entry)) }
{
    let mut h = h;
    let mut rest = es;
    while let Some((e, front)) = rest.split_last() {
        h = with_dropped(e, h)?;
        rest = front;
    }
    Ok(h)
}

/// Evaluates an operand, and then goes on with an operator.
fn with_operand<'p>(
    of: &'p Boxed<TExpr>,
    operator: Operator<'p>,
    h: Here<'p>,
) -> Result<Next<'p>, NoMemory>
    ensures { IfOk result (λ n. next_of n ≡ step.does (here_of h.entry) (item.Eval of.now ∷ operator_of operator.entry ∷ [])) }
{
    does_two(h, evaluation(of.get()), Work::Operator(operator))
}

/// Evaluates two operands, and then goes on with an operator.
fn with_operands<'p>(
    first: &'p Boxed<TExpr>,
    second: &'p Boxed<TExpr>,
    operator: Operator<'p>,
    h: Here<'p>,
) -> Result<Next<'p>, NoMemory>
    ensures { IfOk result (λ n. next_of n ≡ step.does (here_of h.entry) (item.Eval first.now ∷ item.Eval second.now ∷ operator_of operator.entry ∷ [])) }
{
    does_three(
        h,
        evaluation(first.get()),
        evaluation(second.get()),
        Work::Operator(operator),
    )
}

/// Evaluates the left side, and then goes on with the right.
fn with_sides<'p>(
    left: &'p Boxed<TExpr>,
    stage: ValueStage,
    right: &'p Boxed<TExpr>,
    h: Here<'p>,
) -> Result<Next<'p>, NoMemory>
    ensures { IfOk result (λ n. next_of n ≡ step.does (here_of h.entry) (item.Eval left.now ∷ value_of stage right.now ∷ [])) }
{
    does_two(h, evaluation(left.get()), Work::Value(stage, right.get()))
}

/// Finds a place, and then goes on with it.
fn with_place<'p>(
    place: &'p Boxed<TPlace>,
    storage: Storage<'p>,
    h: Here<'p>,
) -> Result<Next<'p>, NoMemory>
    ensures { IfOk result (λ n. next_of n ≡ step.does (here_of h.entry) (item.Find place.now ∷ storage_of storage.entry ∷ [])) }
{
    does_two(h, Work::Find(place.get()), Work::Storage(storage))
}

/// Finds a place, reads it, and then goes on with both.
fn with_value_of<'p>(
    place: &'p Boxed<TPlace>,
    ty: &'p Ty,
    storage: Storage<'p>,
    h: Here<'p>,
) -> Result<Next<'p>, NoMemory>
    ensures { IfOk result (λ n. next_of n ≡ step.does (here_of h.entry) (item.Find place.now ∷ item.Look ty.now ∷ storage_of storage.entry ∷ [])) }
{
    does_three(
        h,
        Work::Find(place.get()),
        Work::Storage(Storage::Look(ty)),
        Work::Storage(storage),
    )
}

/// Evaluates an operand, and then asks for an action.
fn with_action<'p>(
    of: &'p Boxed<TExpr>,
    action: Action<'p>,
    h: Here<'p>,
) -> Result<Next<'p>, NoMemory>
    ensures { IfOk result (λ n. next_of n ≡ step.does (here_of h.entry) (item.Eval of.now ∷ action_of action.entry ∷ [])) }
{
    does_two(h, evaluation(of.get()), Work::Action(action))
}

/// A value of one word.
fn gives_word<'p>(alloc: Global, word: u32, h: Here<'p>) -> Result<Next<'p>, NoMemory>
    ensures { IfOk result (λ n. next_of n ≡ step.gives (here_of h.entry) (word ∷ [])) }
{
    let words = one_word(alloc, word)?;
    gives(h, words)
}

/// A number, a character or an enum constant.
fn eval_constant<'p>(alloc: Global, ty: &Ty, bits: u64, h: Here<'p>) -> Result<Next<'p>, Unmade>
    ensures next { IfOk result (λ n. next_of n ≡ step.gives (here_of h.entry) (integer_words (kind_of ty.now) bits)) }
    ensures why { IfErr result (λ e. Explains e (bits < 2 ^ width_of (kind_of ty.now))) }
{
    let kind = kind_of(ty);
    if !has_room(kind, bits) {
        return Err(Unmade::TooLarge);
    }
    let words = integer_words(alloc, kind, bits)?;
    Ok(gives(h, words)?)
}

/// The address of the block of a string constant.
fn eval_text<'p>(alloc: Global, number: u32, h: Here<'p>) -> Result<Next<'p>, Unmade>
    requires { IsLaidOut h.program.now.aggregates }
    ensures next { IfOk result (λ n. next_of n ≡ step.gives (here_of h.entry) (text_place h.entry.program.now number ∷ [])) }
    ensures why { IfErr result (λ e. Explains e (text_place h.entry.program.now number < 2 ^ 32)) }
{
    match word_of(text_place(h.program, number)) {
        None => Err(Unmade::TooLarge),
        Some(place) => Ok(gives_word(alloc, place, h)?),
    }
}

/// A function's name as a value.
fn eval_function<'p>(alloc: Global, number: u32, h: Here<'p>) -> Result<Next<'p>, Unmade>
    ensures next { IfOk result (λ n. next_of n ≡ step.gives (here_of h.entry) (function_address number ∷ [])) }
    ensures why { IfErr result (λ e. Explains e (function_address number < 2 ^ 32)) }
{
    match word_of(0x0800_0000 + 4 * number as u64) {
        None => Err(Unmade::TooLarge),
        Some(address) => Ok(gives_word(alloc, address, h)?),
    }
}

/// The size of a type, as a value.
fn eval_size<'p>(alloc: Global, ty: &Ty, h: Here<'p>) -> Result<Next<'p>, Unmade>
    requires { IsLaidOut h.program.now.aggregates }
    ensures next { IfOk result (λ n. next_of n ≡ step.gives (here_of h.entry) (step.size_in h.entry.program.now ty.now ∷ [])) }
    ensures why { IfErr result (λ e. Explains e (IsSmall h.entry.program.now ty.now)) }
{
    match small_size(h.program, ty) {
        None => Err(Unmade::TooLarge),
        Some(size) => Ok(gives_word(alloc, size, h)?),
    }
}

/// The size of what stands at a place, as a value.
fn eval_size_of_place<'p>(
    alloc: Global,
    place: &Boxed<TPlace>,
    h: Here<'p>,
) -> Result<Next<'p>, Unmade>
    requires { IsLaidOut h.program.now.aggregates }
    ensures next { IfOk result (λ n. next_of n ≡ step.gives (here_of h.entry) (step.size_in h.entry.program.now (place_type place.now) ∷ [])) }
    ensures why { IfErr result (λ e. Explains e (IsSmall h.entry.program.now (place_type place.now))) }
{
    eval_size(alloc, place.get().ty(), h)
}

/// The size of a value that is not evaluated, as a value.
fn eval_size_of_value<'p>(
    alloc: Global,
    value: &Boxed<TExpr>,
    h: Here<'p>,
) -> Result<Next<'p>, Unmade>
    requires { IsLaidOut h.program.now.aggregates }
    ensures next { IfOk result (λ n. next_of n ≡ step.gives (here_of h.entry) (step.size_in h.entry.program.now (type_of value.now) ∷ [])) }
    ensures why { IfErr result (λ e. Explains e (IsSmall h.entry.program.now (type_of value.now))) }
{
    eval_size(alloc, value.get().ty(), h)
}

/// The address of a place, as a value.
fn eval_address<'p>(place: &'p Boxed<TPlace>, h: Here<'p>) -> Result<Next<'p>, NoMemory>
    ensures { IfOk result (λ n. next_of n ≡ step.does (here_of h.entry) (item.Find place.now ∷ item.AddressOf ∷ [])) }
{
    with_place(place, Storage::AddressOf, h)
}

/// An operator on one operand.
fn eval_unary<'p>(
    ty: &Ty,
    op: UnaryOp,
    of: &'p Boxed<TExpr>,
    h: Here<'p>,
) -> Result<Next<'p>, NoMemory>
    ensures { IfOk result (λ n. next_of n ≡ step.does (here_of h.entry) (item.Eval of.now ∷ item.Unary op (kind_of ty.now) ∷ [])) }
{
    with_operand(of, Operator::Unary(op, kind_of(ty)), h)
}

/// `&&` and `||`
fn eval_logical<'p>(
    ty: &Ty,
    op: Logic,
    left: &'p Boxed<TExpr>,
    right: &'p Boxed<TExpr>,
    h: Here<'p>,
) -> Result<Next<'p>, NoMemory>
    ensures { IfOk result (λ n. next_of n ≡ spec.eval (expr.Logical ty.now op left.now right.now) (here_of h.entry)) }
{
    match op {
        Logic::And => with_sides(left, ValueStage::AndThen, right, h),
        Logic::Or => with_sides(left, ValueStage::OrElse, right, h),
    }
}

/// A pointer that moves by a count of elements of `size` bytes.
fn eval_moved<'p>(
    ty: &Ty,
    movement: Movement,
    size: u32,
    pointer: &'p Boxed<TExpr>,
    count: &'p Boxed<TExpr>,
    h: Here<'p>,
) -> Result<Next<'p>, NoMemory>
    requires { size ≡ step.size_in h.program.now (step.pointee ty.now) }
    ensures { IfOk result (λ n. next_of n ≡ spec.eval (expr.Move ty.now movement pointer.now count.now) (here_of h.entry)) }
{
    match movement {
        Movement::Forward => {
            with_operands(pointer, count, Operator::Advance { back: false, size }, h)
        }
        Movement::CountFirst => {
            with_operands(count, pointer, Operator::AdvanceCounted { size }, h)
        }
        Movement::Back => with_operands(pointer, count, Operator::Advance { back: true, size }, h),
    }
}

/// A pointer that moves by a count.
fn eval_movement<'p>(
    ty: &Ty,
    movement: Movement,
    pointer: &'p Boxed<TExpr>,
    count: &'p Boxed<TExpr>,
    h: Here<'p>,
) -> Result<Next<'p>, Unmade>
    requires { IsLaidOut h.program.now.aggregates }
    ensures next { IfOk result (λ n. next_of n ≡ spec.eval (expr.Move ty.now movement pointer.now count.now) (here_of h.entry)) }
    ensures why { IfErr result (λ e. Explains e (IsSmall h.entry.program.now (step.pointee ty.now))) }
{
    match pointee_size(h.program, ty) {
        None => Err(Unmade::TooLarge),
        Some(size) => Ok(eval_moved(ty, movement, size, pointer, count, h)?),
    }
}

/// How many elements one pointer is behind another.
fn eval_difference<'p>(
    left: &'p Boxed<TExpr>,
    right: &'p Boxed<TExpr>,
    h: Here<'p>,
) -> Result<Next<'p>, Unmade>
    requires { IsLaidOut h.program.now.aggregates }
    ensures next { IfOk result (λ n. next_of n ≡ step.does (here_of h.entry) (item.Eval left.now ∷ item.Eval right.now ∷ item.Between (step.size_in h.entry.program.now (step.pointee (type_of left.now))) ∷ [])) }
    ensures why { IfErr result (λ e. Explains e (IsSmall h.entry.program.now (step.pointee (type_of left.now)))) }
{
    match pointee_size(h.program, left.get().ty()) {
        None => Err(Unmade::TooLarge),
        Some(size) => Ok(with_operands(left, right, Operator::Between { size }, h)?),
    }
}

/// `target = value`
fn eval_assign<'p>(
    target: &'p Boxed<TTarget>,
    value: &'p Boxed<TExpr>,
    h: Here<'p>,
) -> Result<Next<'p>, NoMemory>
    ensures { IfOk result (λ n. next_of n ≡ step.does (here_of h.entry) (item.Aim target.now ∷ item.Eval value.now ∷ item.Assign target.now ∷ [])) }
{
    does_three(
        h,
        Work::Target(TargetStage::Aim, target.get()),
        evaluation(value.get()),
        Work::Target(TargetStage::Assign, target.get()),
    )
}

/// `place op= value`
fn eval_update<'p>(
    ty: &'p Ty,
    place: &'p Boxed<TPlace>,
    change: Change,
    value: &'p Boxed<TExpr>,
    h: Here<'p>,
) -> Result<Next<'p>, NoMemory>
    ensures { IfOk result (λ n. next_of n ≡ step.does (here_of h.entry) (item.Find place.now ∷ item.Look ty.now ∷ item.Eval value.now ∷ item.Update ty.now change ∷ [])) }
{
    let h = with_work(h, Work::Storage(Storage::Update { ty, change }))?;
    does_three(
        h,
        Work::Find(place.get()),
        Work::Storage(Storage::Look(ty)),
        evaluation(value.get()),
    )
}

/// The parts of a tuple, and then the whole.
fn eval_tuple<'p>(parts: &'p Items<TExpr>, h: Here<'p>) -> Result<Next<'p>, NoMemory>
    ensures { IfOk result (λ n. next_of n ≡ step.does (here_of h.entry) (calls.evaluated parts.now ++ item.Join (length parts.now) ∷ [])) }
{
    let join = Work::Operator(Operator::Join { count: parts.len() });
    moves(with_evaluated(parts.as_slice(), join, h)?)
}

/// A call of a function by its name.
fn eval_call<'p>(e: &'p TExpr, h: Here<'p>) -> Result<Next<'p>, Unmade>
    requires { IsLaidOut h.program.now.aggregates }
    ensures next { IfOk result (λ n. next_of n ≡ step.does (here_of h.entry) (calls.call_work h.entry.program.now e.now item.Invoke)) }
    ensures why { IfErr result (λ x. Explains x (CallFits h.entry.program.now e.now)) }
{
    let h = with_call(e, Then::Invoke, h)?;
    Ok(moves(h)?)
}

/// A call through a pointer.
fn eval_call_pointer<'p>(
    pointer: &'p Boxed<TExpr>,
    arguments: &'p Items<TExpr>,
    h: Here<'p>,
) -> Result<Next<'p>, NoMemory>
    ensures { IfOk result (λ n. next_of n ≡ step.does (here_of h.entry) (item.Eval pointer.now ∷ calls.evaluated arguments.now ++ item.InvokePointer (step.pointee (type_of pointer.now)) (length arguments.now) ∷ [])) }
{
    let invoke = Calling::InvokePointer {
        ty: pointer.get().ty(),
        count: arguments.len(),
    };
    let h = with_evaluated(arguments.as_slice(), Work::Calling(invoke), h)?;
    does(h, evaluation(pointer.get()))
}

/// The arguments of a print, and then the print `e`.
fn eval_print<'p>(
    e: &'p TExpr,
    arguments: &'p Items<TExpr>,
    h: Here<'p>,
) -> Result<Next<'p>, NoMemory>
    ensures { IfOk result (λ n. next_of n ≡ step.does (here_of h.entry) (calls.evaluated arguments.now ++ gather_of e.now ∷ [])) }
{
    let gather = Work::Value(ValueStage::Gather, e);
    moves(with_evaluated(arguments.as_slice(), gather, h)?)
}

/// A send: its value is converted when it is evaluated.
fn eval_send<'p>(
    chan: &'p Boxed<TExpr>,
    value: &'p Boxed<TExpr>,
    h: Here<'p>,
) -> Result<Next<'p>, NoMemory>
    ensures { IfOk result (λ n. next_of n ≡ step.does (here_of h.entry) (item.Eval chan.now ∷ item.Eval value.now ∷ item.Sends (type_of value.now) ∷ [])) }
{
    let value = value.get();
    let send = Work::Action(Action::Sends(value.ty()));
    does_three(h, evaluation(chan.get()), evaluation(value), send)
}

/// A member of the value of a call or a receive.
fn eval_member<'p>(
    value: &'p Boxed<TExpr>,
    path: &'p Items<u32>,
    h: Here<'p>,
) -> Result<Next<'p>, NoMemory>
    ensures { IfOk result (λ n. next_of n ≡ step.does (here_of h.entry) (item.Eval value.now ∷ item.Part (type_of value.now) path.now ∷ [])) }
{
    let value = value.get();
    let part = Work::Part {
        ty: value.ty(),
        path: path.as_slice(),
    };
    does_two(h, evaluation(value), part)
}

/// A conversion.
fn eval_conversion<'p>(of: &'p Boxed<TExpr>, to: &'p Ty, h: Here<'p>) -> Result<Next<'p>, NoMemory>
    ensures { IfOk result (λ n. next_of n ≡ step.does (here_of h.entry) (item.Eval of.now ∷ item.Convert (type_of of.now) to.now ∷ [])) }
{
    let from = of.get().ty();
    with_operand(of, Operator::Convert { from, to }, h)
}

/// Expressions with commas between them: the values of all but the last are dropped.
fn with_sequence<'p>(first: &'p [TExpr], last: &'p TExpr, h: Here<'p>) -> Result<Here<'p>, NoMemory>
    ensures { IfOk result (λ r. here_of r ≡ step.with_work (flat_map spec.and_dropped first.now ++ item.Eval last.now ∷ []) (here_of h.entry)) }
{
    let h = with_work(h, evaluation(last))?;
    with_all_dropped(first, h)
}

/// Expressions with commas between them.
fn eval_sequence<'p>(
    first: &'p Items<TExpr>,
    last: &'p Boxed<TExpr>,
    h: Here<'p>,
) -> Result<Next<'p>, NoMemory>
    ensures { IfOk result (λ n. next_of n ≡ step.does (here_of h.entry) (flat_map spec.and_dropped first.now ++ item.Eval last.now ∷ [])) }
{
    moves(with_sequence(first.as_slice(), last.get(), h)?)
}

/// The turn at hand of an iterator; 0 where there is none.
fn eval_iterator<'p>(alloc: Global, number: u32, h: Here<'p>) -> Result<Next<'p>, NoMemory>
    ensures { IfOk result (λ n. next_of n ≡ step.gives (here_of h.entry) (slice_index h.entry.frame.turns number ∷ [])) }
{
    let turn = word_at(h.frame.turns.as_slice(), number);
    gives_word(alloc, turn, h)
}

/// What evaluating an expression does.
pub fn eval<'p>(alloc: Global, e: &'p TExpr, h: Here<'p>) -> Result<Next<'p>, Unmade>
    requires { IsLaidOut h.program.now.aggregates }
    ensures next { IfOk result (λ n. next_of n ≡ spec.eval e.now (here_of h.entry)) }
    ensures why { IfErr result (λ x. Explains x (Fits h.entry.program.now e.now)) }
{
    match e {
        TExpr::Constant { ty, bits } => eval_constant(alloc, ty, *bits, h),
        TExpr::Text { number, .. } => eval_text(alloc, *number, h),
        TExpr::Nil { .. } => Ok(gives_word(alloc, 0, h)?),
        TExpr::Function { number, .. } => eval_function(alloc, *number, h),
        TExpr::Load { ty, place } => Ok(with_place(place, Storage::Read(ty), h)?),
        TExpr::Decay { place, .. } => Ok(eval_address(place, h)?),
        TExpr::Address { place, .. } => Ok(eval_address(place, h)?),
        TExpr::SizeofType { of, .. } => eval_size(alloc, of, h),
        TExpr::SizeofPlace { place, .. } => eval_size_of_place(alloc, place, h),
        TExpr::SizeofValue { value, .. } => eval_size_of_value(alloc, value, h),
        TExpr::Unary { ty, op, of } => Ok(eval_unary(ty, *op, of, h)?),
        TExpr::Not { of, .. } => Ok(with_operand(of, Operator::Negate, h)?),
        TExpr::Binary {
            op,
            kind,
            left,
            right,
            ..
        } => {
            let operator = Operator::Binary(*op, *kind);
            Ok(with_operands(left, right, operator, h)?)
        }
        TExpr::Logical {
            ty,
            op,
            left,
            right,
        } => Ok(eval_logical(ty, *op, left, right, h)?),
        TExpr::Move {
            ty,
            movement,
            pointer,
            count,
        } => eval_movement(ty, *movement, pointer, count, h),
        TExpr::Difference { left, right, .. } => eval_difference(left, right, h),
        TExpr::Assign { target, value, .. } => Ok(eval_assign(target, value, h)?),
        TExpr::Update {
            ty,
            place,
            change,
            value,
        } => Ok(eval_update(ty, place, *change, value, h)?),
        TExpr::Step { ty, op, place } => {
            let step = Storage::Step { ty, op: *op };
            Ok(with_value_of(place, ty, step, h)?)
        }
        TExpr::Zerox { ty, place } => { Ok(with_value_of(place, ty, Storage::Clear(ty), h)?) }
        TExpr::Tuple { parts, .. } => Ok(eval_tuple(parts, h)?),
        TExpr::Call { .. } => eval_call(e, h),
        TExpr::CallPointer {
            pointer,
            arguments,
            ..
        } => Ok(eval_call_pointer(pointer, arguments, h)?),
        TExpr::Print { arguments, .. } => Ok(eval_print(e, arguments, h)?),
        TExpr::Terminate { status, .. } => Ok(with_action(status, Action::Terminates, h)?),
        TExpr::Receive { ty, chan } => Ok(with_action(chan, Action::Receives(ty), h)?),
        TExpr::Send { chan, value, .. } => Ok(eval_send(chan, value, h)?),
        TExpr::CanReceive { chan, .. } => Ok(with_action(chan, Action::CanReceives, h)?),
        TExpr::CanSend { chan, .. } => Ok(with_action(chan, Action::CanSends, h)?),
        TExpr::MemberOf { value, path, .. } => { Ok(eval_member(value, path, h)?) }
        TExpr::Cast { ty, of } => Ok(eval_conversion(of, ty, h)?),
        TExpr::Convert { ty, of } => Ok(eval_conversion(of, ty, h)?),
        TExpr::Sequence { first, last, .. } => { Ok(eval_sequence(first, last, h)?) }
        TExpr::Iterator { number, .. } => Ok(eval_iterator(alloc, *number, h)?),
    }
}
