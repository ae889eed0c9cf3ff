//! Writing to a sink to the end.

ghost use Rattle.std.specs.Prelude.{◌≤◌, ◌≡◌, OnOk, OnErr};
ghost use Rattle.al_host.specs.Outside.{Faulted, WhereTold};
ghost use Rattle.alef_texts.specs.Outside.{GetsAll, GetsPart};

use al_base::Failed;
use al_host::Sink;

/// Writes all of a piece. Each write offers all that is left of it.
pub fn write_all<S: Sink>(sink: &mut S, piece: &[u8]) -> Result<(), Failed>
    ensures all { OnOk result (WhereTold (GetsAll piece.now) (S.got sink.old) (S.got sink.new)) }
    ensures part { OnErr result (WhereTold (GetsPart piece.now) (S.got sink.old) (S.got sink.new)) }
    ensures cause { OnErr result (Faulted (S.faults sink.old) (S.faults sink.new)) }
    ensures later { S.faults sink.old ≤ S.faults sink.new }
    ensures ok { OnOk result (S.faults sink.new ≡ S.faults sink.old) }
{
    let mut done = 0;
    for _ in 0..piece.len() {
        if done == piece.len() {
            return Ok(());
        }
        done += sink.write(&piece[done..])?;
    }
    Ok(())
}
