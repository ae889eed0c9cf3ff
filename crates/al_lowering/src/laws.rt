// The law on the operations that programs are lowered to.

ghost use Rattle.std.specs.Prelude.{◌≡◌, ◌≢◌, ◌<◌, ◌≤◌, ◌^◌, ℕ, List, length};
ghost use Rattle.al_event.specs.declared.act.Start.{Start};
ghost use Rattle.al_event.specs.declared.entry.Entry.{Entry};
ghost use Rattle.al_world.specs.Alike.{SimulatesFrom};
ghost use Rattle.al_typed.specs.declared.program.Program.{Program};
ghost use Rattle.al_typed.specs.WellTyped.{IsWellTyped};
ghost use Rattle.al_meaning.specs.Meaning.{source, main_start};
ghost use Rattle.al_meaning.specs.Meant.{task_told};
ghost use Rattle.al_meaning.specs.Tasks.{Answer, Stuck};
ghost use Rattle.al_ir.specs.Meaning.{tasks};
ghost use Rattle.al_lowered.specs.Rules.{AreGood, IsKnownStart, IsPrivate, rules};
ghost use Rattle.al_lowered.specs.Lowered.{Lowered};
ghost use Rattle.al_lower_code.specs.Functions.{lowered};
ghost use Rattle.al_lowering.specs.Addresses.{AddressesAreWords, blocks_end};
ghost use Rattle.al_lowering.specs.Example.{example, no_member, no_value};
ghost use Rattle.al_lowering.specs.Runs.{StringsAreBytes, made, meant};

/// The operations of a well-typed program ask what its meaning says, where its addresses are words. So both have the same runs, from
/// each start that the program has, for every region, all globals and every schedule; its main function is such a start. Where
/// the characters of strings are bytes, the first worlds are the same too, and so the runs of the program as a whole. No such
/// program comes to what its meaning leaves without a sense. The addresses are words where the blocks of the first world end below
/// 2^32 and there are few functions. The worked program meets all that is asked. A program that returns what a void call gives, and
/// one that takes a member of an int, have no sense, and are not well typed.
pub fn lowering_keeps_the_meaning()
    ensures lowered { (p : Program) → IsWellTyped p → AddressesAreWords p → Lowered p (lowered p) }
    ensures alike { (p : Program) (start : Start) → IsWellTyped p → AddressesAreWords p → IsKnownStart p start → SimulatesFrom (source p) (tasks (lowered p)) start }
    ensures sense { (p : Program) (n : ℕ) (start : Start) (privates : List ℕ) (answers : List Answer) → IsWellTyped p → AddressesAreWords p → IsKnownStart p start → IsPrivate p privates → AreGood (rules p) answers → task_told p n start privates answers ≢ Stuck }
    ensures main { (p : Program) → IsWellTyped p → IsKnownStart p (main_start p) }
    ensures runs { (p : Program) (region : ℕ) (h : List Entry) → IsWellTyped p → AddressesAreWords p → StringsAreBytes p → meant p region h ≡ made p region h }
    ensures met { IsWellTyped example × AddressesAreWords example × StringsAreBytes example }
    ensures refused { (IsWellTyped no_value → ⊥) × (IsWellTyped no_member → ⊥) }
    ensures addressed { (p : Program) → blocks_end p < 2 ^ 32 → length p.functions ≤ 2 ^ 28 → AddressesAreWords p }
{}
