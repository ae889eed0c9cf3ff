ghost use Rattle.std.specs.Prelude.{◌≡◌, ◌≤◌, ◌<◌, ◌+◌, ◌^◌, [], length, take, drop, min, Some, None, IfSome, IfNone};
ghost use Rattle.al_host.specs.Outside.{text_under};
ghost use Rattle.al_host.specs.Memory.{fresh_plan, text_at, left_of};
ghost use Rattle.al_host.specs.Files.{texts_of};

use crate::fault_plan::FaultPlan;
use crate::host::Host;
use al_base::Failed;
use std::marker::Model;

/// A host that has its texts in memory.
#[derive(Debug, Drop)]
pub struct MemHost {
    files: Vec<(String, Vec<u8>)>,
    /// The place of the text that was found last.
    found: Option<usize>,
    /// How much of it was read.
    read: usize,
    plan: FaultPlan,
}

impl Model for MemHost {
    ghost use Rattle.al_host.specs.Memory.{HostState, left_of};
    ghost use Rattle.al_host.specs.Files.{texts_of};

    ghost Value = { HostState };

    ghost view = { λ h. record { texts = texts_of h.files.items; left = left_of h.found h.read (texts_of h.files.items); plan = h.plan } };
}

/// The place of the first file of that name.
fn place_of(files: &[(String, Vec<u8>)], name: &str) -> Option<usize>
    ensures within { IfSome result (λ at. at < length files.now) }
    ensures text { IfSome result (λ at. text_under name.now (texts_of files.now) ≡ Some (text_at at (texts_of files.now))) }
    ensures none { IfNone result (text_under name.now (texts_of files.now) ≡ None) }
{
    for at in 0..files.len() {
        if files[at].0.as_str() == name {
            return Some(at);
        }
    }
    None
}

/// What is left of the text at a place once a number of its bytes was read.
fn left_in(files: &[(String, Vec<u8>)], found: Option<usize>, read: usize) -> &[u8]
    ensures value { result.now ≡ left_of found read (texts_of files.now) }
    ensures bound { read + length result.now < 2 ^ 64 }
{
    let Some(at) = found else {
        return &[];
    };
    let Some(file) = files.get(at) else {
        return &[];
    };
    rest_of(file.1.as_slice(), read)
}

/// A text without its first bytes.
#[tactic(auto, using(std::proofs::lemmas::List::drop_all))]
fn rest_of(text: &[u8], read: usize) -> &[u8]
    ensures value { result.now ≡ drop read text.now }
    ensures bound { read + length result.now < 2 ^ 64 }
{
    if read < text.len() {
        &text[read..]
    } else {
        &[]
    }
}

/// Copies as much of what is left as there is room for, and gives its length.
fn copy_front(left: &[u8], buf: &mut [u8]) -> usize
    ensures len { result ≡ min (length left.now) (length buf.old) }
    ensures bytes { take result buf.new ≡ take result left.now }
{
    let len = left.len().min(buf.len());
    buf[..len].copy_from_slice(&left[..len]);
    len
}

impl MemHost {
    /// A host of these texts with their names, of which the first counts where two have one name. Its count of faults
    /// is 0, and rises at the calls whose numbers are in `fail`, finds and reads counted together from 1.
    pub fn new(files: Vec<(String, Vec<u8>)>, fail: Vec<u64>) -> MemHost
        ensures { result ≡ record { texts = texts_of files.items; left = []; plan = fresh_plan fail.items } }
    {
        MemHost {
            files,
            found: None,
            read: 0,
            plan: FaultPlan::new(fail),
        }
    }
}

impl Host for MemHost {
    ghost use Rattle.std.specs.Prelude.{◌≡◌, ◌≤◌, ◌⊎◌, ◌↔◌, length, Some, None, IsTrue, IsErr, OnOk, OnErr, IfOk, min};
    ghost use Rattle.al_host.specs.Outside.{Counts, Faulted, WhereTold, Finds, LeavesNothing, Reads, Lacks, text_under};
    ghost use Rattle.al_host.specs.Memory.{is_due, after_call, told};

    ghost content = { λ h. Some (told h) };

    ghost faults = { λ h. h.plan.faults };

    fn find(&mut self, name: &str) -> Result<(), Failed>
        // as every host
        ensures found { OnOk result (WhereTold (Finds name.now) (Some (told self.old)) (Some (told self.new))) }
        ensures refused { OnErr result (WhereTold LeavesNothing (Some (told self.old)) (Some (told self.new))) }
        ensures cause { OnErr result (Faulted self.old.plan.faults self.new.plan.faults
            ⊎ (Lacks name.now (Some (told self.old)) × (self.new.plan.faults ≡ self.old.plan.faults))) }
        ensures count { Counts self.old.plan.faults self.new.plan.faults result }

        // and exactly
        ensures answer { IsErr result ↔ (IsTrue (is_due self.old.plan) ⊎ (text_under name.now self.old.texts ≡ None)) }
        ensures plan { self.new.plan ≡ after_call (is_due self.old.plan) self.old.plan }
    {
        self.found = None;
        if self.plan.call() {
            return Err(Failed);
        }
        self.found = place_of(self.files.as_slice(), name);
        self.read = 0;
        match self.found {
            Some(_) => Ok(()),
            None => Err(Failed),
        }
    }

    fn read(&mut self, buf: &mut [u8]) -> Result<usize, Failed>
        // as every host
        ensures within { IfOk result (λ n. n ≤ length buf.old) }
        ensures read { IfOk result (λ n. WhereTold (Reads n buf.new) (Some (told self.old)) (Some (told self.new))) }
        ensures refused { OnErr result (Some (told self.new) ≡ Some (told self.old)) }
        ensures cause { OnErr result (Faulted self.old.plan.faults self.new.plan.faults) }
        ensures count { Counts self.old.plan.faults self.new.plan.faults result }

        // and exactly
        ensures answer { IsErr result ↔ IsTrue (is_due self.old.plan) }
        ensures len { IfOk result (λ n. n ≡ min (length self.old.left) (length buf.old)) }
        ensures plan { self.new.plan ≡ after_call (is_due self.old.plan) self.old.plan }
    {
        if self.plan.call() {
            return Err(Failed);
        }
        let len = copy_front(left_in(self.files.as_slice(), self.found, self.read), buf);
        self.read += len;
        Ok(len)
    }
}
