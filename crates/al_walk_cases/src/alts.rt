//! Alts.
ghost use Rattle.std.specs.Prelude.{◌≡◌, ◌∷◌, [], ◌++◌, ◌<◌, ◌^◌, List, Some, None, All, drop, length, slice_get, slice_index, IfOk, IfErr, IfSome, MatchOption, OnOk};
ghost use Rattle.al_event.specs.declared.act.Act.TheVariants as act;
ghost use Rattle.al_typed.specs.declared.statement.TCommunication.{TCommunication as Communication};
ghost use Rattle.al_typed.specs.Layout.{IsLaidOut};
ghost use Rattle.al_typed.specs.Typed.{target_type};
ghost use Rattle.al_meaning.specs.Calls as calls;
ghost use Rattle.al_meaning.specs.Evaluate as evaluate;
ghost use Rattle.al_meaning.specs.Execute as execute;
ghost use Rattle.al_meaning.specs.Here as here;
ghost use Rattle.al_meaning.specs.Items as item;
ghost use Rattle.al_meaning.specs.Places.{words_in};
ghost use Rattle.al_meaning.specs.Step as step;
ghost use Rattle.al_meaning.specs.Words as meant;
ghost use Rattle.al_control_values.specs.Fits.{IsSmall};
ghost use Rattle.al_control.specs.Fits.{Explains};
ghost use Rattle.al_control.specs.Models.{here_of, next_of};
ghost use Rattle.al_walk_loops.specs.BodyParts.{statements_in};
ghost use Rattle.al_walk_cases.specs.CaseLists as spec;
ghost use Rattle.al_walk_cases.specs.Fits.{CasesFit, TalkFits, TalksFit, TalksFitIn, WentFits};

use al_base::NoMemory;
use al_control::{
    Here, Next, Stack, Stage, Taken, TargetStage, Unmade, Work, asks, lost, moves, staged, value,
    values, with_work,
};
use al_control_values::{converted, fitted_to, is_small, split_word};
use al_event::{Act, Branch, Words};
use al_items::Items;
use al_typed::{Program, TCommunication, TStmt, TTarget, Ty, units};
use al_variables::few_words;
use al_walk_loops::{evaluation, with_body};
use std::alloc::Global;

/// The communication that a statement is the case of.
fn communication(s: &TStmt) -> Option<&TCommunication>
    ensures { MatchOption result (spec.communication_of s.now ≡ []) (λ c. spec.communication_of s.now ≡ c.now ∷ []) }
{
    match s {
        TStmt::AltCase { communication } => Some(communication),
        _ => None,
    }
}

/// How many expressions a communication has.
fn count_exprs(communication: &TCommunication) -> usize
    ensures { result ≡ length (evaluate.communication_exprs communication.now) }
{
    match communication {
        TCommunication::Receive { .. } => 1,
        TCommunication::ReceiveInto { .. } => 1,
        TCommunication::Send { .. } => 2,
    }
}

/// How many expressions the communication has that a statement is the case of; of another statement none.
fn count_in(s: &TStmt) -> usize
    ensures { result ≡ length (evaluate.alt_exprs (spec.communication_of s.now)) }
{
    match communication(s) {
        Some(communication) => count_exprs(communication),
        None => 0,
    }
}

/// How many expressions the communications of an alt's cases have, where there are fewer than 2^64.
fn count_all(body: &[TStmt]) -> Option<usize>
    ensures { MatchOption result (length (evaluate.alt_exprs (spec.communications_in body.now)) < 2 ^ 64 → ⊥) (λ count. count ≡ length (evaluate.alt_exprs (spec.communications_in body.now))) }
{
    let mut count: usize = 0;
    for s in body {
        match count.checked_add(count_in(s)) {
            None => return None,
            Some(more) => count = more,
        }
    }
    Some(count)
}

/// The channel of a communication, and the value that it sends, are to be evaluated, before the rest.
fn with_communication<'p>(
    communication: &'p TCommunication,
    h: Here<'p>,
) -> Result<Here<'p>, NoMemory>
    ensures { IfOk result (λ r. here_of r ≡ here.with_work (calls.evaluated (evaluate.communication_exprs communication.now)) (here_of h.entry)) }
{
    match communication {
        TCommunication::Receive { chan, .. } => with_work(h, evaluation(chan)),
        TCommunication::ReceiveInto { chan, .. } => with_work(h, evaluation(chan)),
        TCommunication::Send { chan, value } => {
            let h = with_work(h, evaluation(value))?;
            with_work(h, evaluation(chan))
        }
    }
}

/// The same of the communication that a statement is the case of.
fn with_case<'p>(s: &'p TStmt, h: Here<'p>) -> Result<Here<'p>, NoMemory>
    ensures { IfOk result (λ r. here_of r ≡ here.with_work (calls.evaluated (evaluate.alt_exprs (spec.communication_of s.now))) (here_of h.entry)) }
{
    match communication(s) {
        Some(communication) => with_communication(communication, h),
        None => Ok(h),
    }
}

/// The channels and values of an alt's cases are to be evaluated, in text order, before the rest.
pub fn with_cases<'p>(body: &'p [TStmt], h: Here<'p>) -> Result<Here<'p>, NoMemory>
    ensures { IfOk result (λ r. here_of r ≡ here.with_work (calls.evaluated (evaluate.alt_exprs (spec.communications_in body.now))) (here_of h.entry)) }
{
    let mut h = h;
    for k in (0..body.len()).rev() {
        h = with_case(&body[k], h)?;
    }
    Ok(h)
}

/// Takes the first value away, no words where there is none.
fn first_value(alloc: Global, values: &mut Stack<Words>) -> Words
    ensures value { result ≡ evaluate.value_at values.old 0 }
    ensures rest { values.new ≡ drop 1 values.old }
{
    match values.pop() {
        None => Items::new(alloc),
        Some(words) => words,
    }
}

/// Takes the first value away, and gives its first word.
fn first_word(alloc: Global, values: &mut Stack<Words>) -> u32
    ensures word { result ≡ slice_index (evaluate.value_at values.old 0) 0 }
    ensures rest { values.new ≡ drop 1 values.old }
{
    let words = first_value(alloc, values);
    let (word, _) = split_word(words.as_slice());
    word
}

/// A branch on a channel, of values of a type, where their words are few enough for a word.
fn branch_on(p: &Program, ty: &Ty, chan: u32, send: Option<Words>) -> Option<Branch>
    requires { IsLaidOut p.now.aggregates }
    ensures { MatchOption result (words_in p.now ty.now < 2 ^ 32 → ⊥) (λ b. b ≡ record { chan = chan; words = words_in p.now ty.now; send = send }) }
{
    match few_words(p.aggregates.as_slice(), ty) {
        None => None,
        Some(words) => Some(Branch { chan, words, send }),
    }
}

/// The branch of a send, where its channel and its value stand before the other values.
fn send_branch(alloc: Global, p: &Program, ty: &Ty, values: &mut Stack<Words>) -> Option<Branch>
    requires { IsLaidOut p.now.aggregates }
    ensures branch { MatchOption result (words_in p.now ty.now < 2 ^ 32 → ⊥) (λ b. b ≡ evaluate.sending p.now ty.now (slice_index (evaluate.value_at values.old 0) 0) (evaluate.value_at values.old 1)) }
    ensures rest { values.new ≡ drop 2 values.old }
{
    let chan = first_word(alloc, values);
    let sent = first_value(alloc, values);
    branch_on(p, ty, chan, Some(sent))
}

/// The branch of a receive, where its channel stands before the other values.
fn receive_branch(alloc: Global, p: &Program, ty: &Ty, values: &mut Stack<Words>) -> Option<Branch>
    requires { IsLaidOut p.now.aggregates }
    ensures branch { MatchOption result (words_in p.now ty.now < 2 ^ 32 → ⊥) (λ b. b ≡ evaluate.receiving p.now ty.now (slice_index (evaluate.value_at values.old 0) 0)) }
    ensures rest { values.new ≡ drop 1 values.old }
{
    let chan = first_word(alloc, values);
    branch_on(p, ty, chan, None)
}

/// The branch of a communication, whose values stand before the others.
fn branch_of(
    alloc: Global,
    p: &Program,
    communication: &TCommunication,
    values: &mut Stack<Words>,
) -> Option<Branch>
    requires { IsLaidOut p.now.aggregates }
    ensures branch { MatchOption result (TalkFits p.now communication.now → ⊥) (λ b. b ≡ evaluate.alt_branch p.now communication.now values.old) }
    ensures rest { values.new ≡ drop (length (evaluate.communication_exprs communication.now)) values.old }
{
    match communication {
        TCommunication::Receive { ty, .. } => receive_branch(alloc, p, ty, values),
        TCommunication::ReceiveInto { ty, .. } => receive_branch(alloc, p, ty, values),
        TCommunication::Send { value, .. } => send_branch(alloc, p, value.ty(), values),
    }
}

/// The branch of a communication, behind the others.
fn put_branch(
    alloc: Global,
    p: &Program,
    communication: &TCommunication,
    values: &mut Stack<Words>,
    branches: &mut Items<Branch>,
) -> Result<(), Unmade>
    requires { IsLaidOut p.now.aggregates }
    ensures put { OnOk result (branches.new ≡ branches.old ++ evaluate.alt_branch p.now communication.now values.old ∷ []) }
    ensures rest { OnOk result (values.new ≡ drop (length (evaluate.communication_exprs communication.now)) values.old) }
    ensures why { IfErr result (λ e. Explains e (TalkFits p.now communication.now)) }
{
    match branch_of(alloc, p, communication, values) {
        None => Err(Unmade::TooLarge),
        Some(branch) => Ok(branches.push(branch)?),
    }
}

/// The branch of the communication that a statement is the case of, behind the others.
fn put_case(
    alloc: Global,
    p: &Program,
    s: &TStmt,
    values: &mut Stack<Words>,
    branches: &mut Items<Branch>,
) -> Result<(), Unmade>
    requires { IsLaidOut p.now.aggregates }
    ensures put { OnOk result ((more : List Communication) → branches.new ++ evaluate.alt_branches p.now more values.new ≡ branches.old ++ evaluate.alt_branches p.now (spec.communication_of s.now ++ more) values.old) }
    ensures why { IfErr result (λ e. Explains e (All (TalkFits p.now) (spec.communication_of s.now))) }
{
    match communication(s) {
        Some(communication) => {
            put_branch(alloc, p, communication, values, branches)?;
            Ok(())
        }
        None => Ok(()),
    }
}

/// The branches of an alt, from the values of all its cases.
fn all_branches(
    alloc: Global,
    p: &Program,
    body: &[TStmt],
    values: Stack<Words>,
) -> Result<Items<Branch>, Unmade>
    requires { IsLaidOut p.now.aggregates }
    ensures branches { IfOk result (λ bs. bs ≡ evaluate.alt_branches p.now (spec.communications_in body.now) values) }
    ensures why { IfErr result (λ e. Explains e (All (TalkFits p.now) (spec.communications_in body.now))) }
{
    let mut values = values;
    let mut branches = Items::new(alloc);
    for s in body {
        put_case(alloc, p, s, &mut values, &mut branches)?;
    }
    Ok(branches)
}

/// The cases of an alt; none of another statement.
#[tactic(auto, using(crate::proofs::CaseSteps::alts))]
fn cases_of(s: &TStmt) -> &[TStmt]
    ensures { execute.cases_of s.now ≡ spec.branchings_in result.now }
{
    match s {
        TStmt::Alt { body, .. } => body.as_slice(),
        _ => &[],
    }
}

/// The alt `s` asks for a talk, with the values of these cases.
fn talks<'p>(
    alloc: Global,
    body: &[TStmt],
    values: Stack<Words>,
    s: &'p TStmt,
    h: Here<'p>,
) -> Result<Next<'p>, Unmade>
    requires { IsLaidOut h.program.now.aggregates }
    ensures next { IfOk result (λ n. next_of n ≡ here.asks (here_of h.entry) (act.Talk (evaluate.alt_branches h.entry.program.now (spec.communications_in body.now) values)) (item.AltWent s.now ∷ [])) }
    ensures why { IfErr result (λ e. Explains e (All (TalkFits h.entry.program.now) (spec.communications_in body.now))) }
{
    let branches = all_branches(alloc, h.program, body, values)?;
    let went = staged(alloc, Stage::AltWent, s)?;
    Ok(asks(h, Act::Talk { branches }, went)?)
}

/// So many channels and values of these cases of the alt `s` were found.
fn talk_with<'p>(
    alloc: Global,
    count: usize,
    body: &[TStmt],
    s: &'p TStmt,
    h: Here<'p>,
) -> Result<Next<'p>, Unmade>
    requires { IsLaidOut h.program.now.aggregates }
    ensures next { IfOk result (λ n. next_of n ≡ here.with_values count (here_of h.entry) (λ values h. here.asks h (act.Talk (evaluate.alt_branches h.program (spec.communications_in body.now) values)) (item.AltWent s.now ∷ []))) }
    ensures why { IfErr result (λ e. Explains e (All (TalkFits h.entry.program.now) (spec.communications_in body.now))) }
{
    match values(alloc, count, h)? {
        Taken::Lost(next) => Ok(next),
        Taken::Took(values, h) => talks(alloc, body, values, s, h),
    }
}

/// The channels and values of these cases of the alt `s` were found.
fn talk_in<'p>(alloc: Global, body: &[TStmt], s: &'p TStmt, h: Here<'p>) -> Result<Next<'p>, Unmade>
    requires { IsLaidOut h.program.now.aggregates }
    ensures next { IfOk result (λ n. next_of n ≡ here.with_values (length (evaluate.alt_exprs (spec.communications_in body.now))) (here_of h.entry) (λ values h. here.asks h (act.Talk (evaluate.alt_branches h.program (spec.communications_in body.now) values)) (item.AltWent s.now ∷ []))) }
    ensures why { IfErr result (λ e. Explains e (TalksFitIn h.entry.program.now (spec.communications_in body.now))) }
{
    match count_all(body) {
        None => Err(Unmade::TooLarge),
        Some(count) => talk_with(alloc, count, body, s, h),
    }
}

/// The channels and values of an alt were found.
pub fn alt_talk<'p>(alloc: Global, s: &'p TStmt, h: Here<'p>) -> Result<Next<'p>, Unmade>
    requires { IsLaidOut h.program.now.aggregates }
    ensures next { IfOk result (λ n. next_of n ≡ step.step_work (item.AltTalk s.now) (here_of h.entry)) }
    ensures why { IfErr result (λ e. Explains e (TalksFit h.entry.program.now s.now)) }
{
    talk_in(alloc, cases_of(s), s, h)
}

/// A value that was received, as a value of the type of its target.
fn received_value(
    alloc: Global,
    p: &Program,
    from: &Ty,
    to: &Ty,
    received: &[u32],
) -> Result<Words, NoMemory>
    requires laid_out { IsLaidOut p.now.aggregates }
    requires small { IsSmall p.now from.now }
    ensures { IfOk result (λ ws. ws ≡ meant.converted p.now.aggregates from.now to.now (meant.fitted_to (here.units_in p.now from.now) received.now)) }
{
    let units = units(alloc, p, from)?;
    let fitted = fitted_to(alloc, &units, received)?;
    converted(alloc, p.aggregates.as_slice(), from, to, fitted.as_slice())
}

/// A value is to be put into a target, before the rest.
fn with_given<'p>(target: &'p TTarget, given: Words, h: Here<'p>) -> Result<Here<'p>, NoMemory>
    ensures { IfOk result (λ r. here_of r ≡ here.with_work (item.Aim target.now ∷ item.Give given ∷ item.Assign target.now ∷ item.Drop ∷ []) (here_of h.entry)) }
{
    let h = with_work(h, Work::Forget)?;
    let h = with_work(h, Work::Target(TargetStage::Assign, target))?;
    let h = with_work(h, Work::Give(given))?;
    with_work(h, Work::Target(TargetStage::Aim, target))
}

/// A value that was received is to be put into a target, before the rest.
fn with_received<'p>(
    alloc: Global,
    ty: &Ty,
    target: &'p TTarget,
    received: &[u32],
    h: Here<'p>,
) -> Result<Here<'p>, NoMemory>
    requires laid_out { IsLaidOut h.program.now.aggregates }
    requires small { IsSmall h.program.now ty.now }
    ensures { IfOk result (λ r. here_of r ≡ here.with_work (item.Aim target.now ∷ item.Give (meant.converted h.entry.program.now.aggregates ty.now (target_type target.now) (meant.fitted_to (here.units_in h.entry.program.now ty.now) received.now)) ∷ item.Assign target.now ∷ item.Drop ∷ []) (here_of h.entry)) }
{
    let given = received_value(alloc, h.program, ty, target.ty(), received)?;
    with_given(target, given, h)
}

/// The same, where the values of the type are small.
fn with_small<'p>(
    alloc: Global,
    ty: &Ty,
    target: &'p TTarget,
    received: &[u32],
    h: Here<'p>,
) -> Result<Here<'p>, Unmade>
    requires { IsLaidOut h.program.now.aggregates }
    ensures next { IfOk result (λ r. here_of r ≡ here.with_work (item.Aim target.now ∷ item.Give (meant.converted h.entry.program.now.aggregates ty.now (target_type target.now) (meant.fitted_to (here.units_in h.entry.program.now ty.now) received.now)) ∷ item.Assign target.now ∷ item.Drop ∷ []) (here_of h.entry)) }
    ensures why { IfErr result (λ e. Explains e (IsSmall h.entry.program.now ty.now)) }
{
    if is_small(h.program, ty) {
        Ok(with_received(alloc, ty, target, received, h)?)
    } else {
        Err(Unmade::TooLarge)
    }
}

/// What a communication that went does with what it received, before the rest.
fn with_went<'p>(
    alloc: Global,
    communication: &'p TCommunication,
    received: &[u32],
    h: Here<'p>,
) -> Result<Here<'p>, Unmade>
    requires { IsLaidOut h.program.now.aggregates }
    ensures next { IfOk result (λ r. here_of r ≡ here.with_work (evaluate.went_work h.entry.program.now communication.now received.now) (here_of h.entry)) }
    ensures why { IfErr result (λ e. Explains e (WentFits h.entry.program.now communication.now)) }
{
    match communication {
        TCommunication::ReceiveInto { ty, target, .. } => {
            with_small(alloc, ty, target, received, h)
        }
        TCommunication::Receive { .. } => Ok(h),
        TCommunication::Send { .. } => Ok(h),
    }
}

/// The statements behind a case that went, and then the end of the body round them, before the rest.
fn with_case_body<'p>(alloc: Global, body: &'p [TStmt], h: Here<'p>) -> Result<Here<'p>, NoMemory>
    ensures { IfOk result (λ r. here_of r ≡ here.with_items (statements_in body.now) (here.with_work (item.CasesEnd ∷ []) (here_of h.entry))) }
{
    let h = with_work(h, Work::CasesEnd)?;
    with_body(alloc, body, h)
}

/// A case of an alt went: what it received is put where it belongs, and then comes what stands behind it.
fn goes_into<'p>(
    alloc: Global,
    communication: &'p TCommunication,
    body: &'p [TStmt],
    received: &[u32],
    h: Here<'p>,
) -> Result<Next<'p>, Unmade>
    requires { IsLaidOut h.program.now.aggregates }
    ensures next { IfOk result (λ n. next_of n ≡ evaluate.goes_into (here_of h.entry) (Some (record { communication = communication.now; body = statements_in body.now })) received.now) }
    ensures why { IfErr result (λ e. Explains e (WentFits h.entry.program.now communication.now)) }
{
    let begun = with_case_body(alloc, body, h)?;
    let entered = with_went(alloc, communication, received, begun)?;
    Ok(moves(entered)?)
}

/// How many cases a statement is: one or none.
fn cases_at(s: &TStmt) -> u32
    ensures { result ≡ length (spec.communication_of s.now) }
{
    match s {
        TStmt::AltCase { .. } => 1,
        _ => 0,
    }
}

/// Where the case of that number stands among these.
fn place_of(cases: &[TStmt], number: u32) -> Option<usize>
    ensures found { MatchOption result (slice_get (spec.branchings_in cases.now) number ≡ None) (spec.IsPlaceOf cases.now number) }
    ensures within { IfSome result (λ k. k < length cases.now) }
{
    let mut left = number;
    for (k, s) in cases.iter().enumerate() {
        let passed = cases_at(s);
        if left < passed {
            return Some(k);
        }
        left -= passed;
    }
    None
}

/// The case that a statement is went, with these statements behind it.
fn went_at<'p>(
    alloc: Global,
    s: &'p TStmt,
    rest: &'p [TStmt],
    received: &[u32],
    h: Here<'p>,
) -> Result<Next<'p>, Unmade>
    requires { IsLaidOut h.program.now.aggregates }
    ensures next { IfOk result (λ n. next_of n ≡ evaluate.goes_into (here_of h.entry) (slice_get (spec.branching_of s.now rest.now) 0) received.now) }
    ensures why { IfErr result (λ e. Explains e (All (WentFits h.entry.program.now) (spec.communication_of s.now))) }
{
    match communication(s) {
        None => Ok(lost(h)?),
        Some(communication) => goes_into(alloc, communication, rest, received, h),
    }
}

/// The case of that number among these went.
fn case_went<'p>(
    alloc: Global,
    cases: &'p [TStmt],
    number: u32,
    received: &[u32],
    h: Here<'p>,
) -> Result<Next<'p>, Unmade>
    requires { IsLaidOut h.program.now.aggregates }
    ensures next { IfOk result (λ n. next_of n ≡ evaluate.goes_into (here_of h.entry) (slice_get (spec.branchings_in cases.now) number) received.now) }
    ensures why { IfErr result (λ e. Explains e (All (WentFits h.entry.program.now) (spec.communications_in cases.now))) }
{
    match place_of(cases, number) {
        None => Ok(lost(h)?),
        Some(k) => went_at(alloc, &cases[k], &cases[k + 1..], received, h),
    }
}

/// The case of the alt `s` went whose number the answer has, with what it received.
fn went_with<'p>(
    alloc: Global,
    s: &'p TStmt,
    answer: &[u32],
    h: Here<'p>,
) -> Result<Next<'p>, Unmade>
    requires { IsLaidOut h.program.now.aggregates }
    ensures next { IfOk result (λ n. next_of n ≡ evaluate.goes_into (here_of h.entry) (slice_get (execute.cases_of s.now) (slice_index answer.now 0)) (drop 1 answer.now)) }
    ensures why { IfErr result (λ e. Explains e (CasesFit h.entry.program.now s.now)) }
{
    let cut = split_word(answer);
    case_went(alloc, cases_of(s), cut.0, cut.1, h)
}

/// A case of an alt went: the answer has its number, and what it received.
pub fn alt_went<'p>(alloc: Global, s: &'p TStmt, h: Here<'p>) -> Result<Next<'p>, Unmade>
    requires { IsLaidOut h.program.now.aggregates }
    ensures next { IfOk result (λ n. next_of n ≡ step.step_work (item.AltWent s.now) (here_of h.entry)) }
    ensures why { IfErr result (λ e. Explains e (CasesFit h.entry.program.now s.now)) }
{
    match value(h)? {
        Taken::Lost(next) => Ok(next),
        Taken::Took(answer, h) => went_with(alloc, s, answer.as_slice(), h),
    }
}
