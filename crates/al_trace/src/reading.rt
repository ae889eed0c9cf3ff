ghost use Rattle.std.specs.Prelude.{◌≡◌, ◌≤◌, ◌++◌, ℕ, List, Result, Ok, Err, [], length, All, OnOk, IfOk, IfErr};
ghost use Rattle.al_event.specs.declared.entry.Entry.{Entry};
ghost use Rattle.al_host.specs.Outside.{Content, Faulted, WhereTold};
ghost use Rattle.al_trace.specs.declared.stop.TraceStop.{TraceStop};
ghost use Rattle.al_trace.specs.Lines.{IsPart, text_of};
ghost use Rattle.al_trace.specs.Schedule.{Answers, Gives, IsEntry, IsReading, most};
ghost use Rattle.al_trace.specs.Reading.{ReadsAll, FaultCounts, StopsIn};

use crate::lines::Lines;
use crate::stop::TraceStop;
use al_event::Entry;
use al_host::Host;
use std::alloc::Global;

/// How many bytes are read at once.
const PIECE: usize = 4_096;

/// Reads what is left of the host's text, which is to be the text of a schedule, piece by piece. Of a text that is
/// none it may leave some.
pub fn read<H: Host>(alloc: Global, host: &mut H) -> Result<Vec<Entry>, TraceStop>
    // What it answers is so of the text that was left.
    ensures exact { WhereTold (λ before after. Gives result before.left) (H.content host.old) (H.content host.new) }
    // What is so of the text is answered, unless the host has a fault or memory runs out.
    ensures only { WhereTold (λ before after. (reading : Result (List Entry) TraceStop) → IsReading before.left reading → Answers result reading) (H.content host.old) (H.content host.new) }
    ensures end { OnOk result (WhereTold (λ before after. after.left ≡ []) (H.content host.old) (H.content host.new)) }
    ensures few { IfOk result (λ entries. length entries.items ≤ most) }
    ensures entries { IfOk result (λ entries. All IsEntry entries.items) }
    ensures same { WhereTold (λ before after. after.texts ≡ before.texts) (H.content host.old) (H.content host.new) }
    ensures faults { FaultCounts result (H.faults host.old) (H.faults host.new) }
{
    read_all(alloc, host)
}

#[tactic(auto, using(crate::proofs::FromHost::few_given, crate::proofs::FromHost::entries_given))]
fn read_all<H: Host>(alloc: Global, host: &mut H) -> Result<Vec<Entry>, TraceStop>
    ensures exact { WhereTold (λ before after. Gives result before.left) (H.content host.old) (H.content host.new) }
    ensures end { OnOk result (WhereTold (λ before after. after.left ≡ []) (H.content host.old) (H.content host.new)) }
    ensures few { IfOk result (λ entries. length entries.items ≤ most) }
    ensures entries { IfOk result (λ entries. All IsEntry entries.items) }
    ensures same { WhereTold (λ before after. after.texts ≡ before.texts) (H.content host.old) (H.content host.new) }
    ensures faults { FaultCounts result (H.faults host.old) (H.faults host.new) }
{
    let mut lines = Lines::new(alloc);
    read_lines(host, &mut lines)?;
    lines.finish()
}

/// Takes all that is left of the host's text.
fn read_lines<H: Host>(host: &mut H, lines: &mut Lines) -> Result<(), TraceStop>
    requires { IsPart lines.old }
    ensures part { OnOk result (IsPart lines.new) }
    ensures all { OnOk result (WhereTold (ReadsAll (text_of lines.old) (text_of lines.new)) (H.content host.old) (H.content host.new)) }
    ensures stop { IfErr result (λ stop. WhereTold (StopsIn stop (text_of lines.old)) (H.content host.old) (H.content host.new)) }
    ensures faults { FaultCounts result (H.faults host.old) (H.faults host.new) }
{
    let mut piece = [0; PIECE];
    loop {
        let len = host.read(&mut piece)?;
        if len == 0 {
            return Ok(());
        }
        lines.push_piece(&piece[..len])?;
    }
}
