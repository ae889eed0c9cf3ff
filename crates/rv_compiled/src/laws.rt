// The law on programs that were compiled.

ghost use Rattle.std.specs.Prelude.{◌≡◌, ℕ, List};
ghost use Rattle.al_event.specs.declared.act.Start.{Start};
ghost use Rattle.al_event.specs.declared.entry.Entry.{Entry};
ghost use Rattle.al_world.specs.Alike.{SimulatesFrom};
ghost use Rattle.al_typed.specs.declared.program.Program.{Program};
ghost use Rattle.al_typed.specs.WellTyped.{IsWellTyped};
ghost use Rattle.al_meaning.specs.Meaning.{source};
ghost use Rattle.al_ir.specs.Meaning.{tasks};
ghost use Rattle.al_lowered.specs.Lowered.{Lowered};
ghost use Rattle.al_lowered.specs.Rules.{IsKnownStart};
ghost use Rattle.al_lower_code.specs.Functions.{lowered};
ghost use Rattle.al_lowering.specs.Addresses.{AddressesAreWords};
ghost use Rattle.al_lowering.specs.Runs.{meant};
ghost use Rattle.rv_isa.specs.declared.image.Contents.{Contents};
ghost use Rattle.rv_exec.specs.Machine.{machine};
ghost use Rattle.rv_form.specs.Layout.{Layout};
ghost use Rattle.rv_alike.specs.LaidOut.{IsLaidOut};
ghost use Rattle.rv_compiled.specs.Compiled.{IsCompiledTo, IsMadeOf, seen_of_image};

use al_lowering::lowering_keeps_the_meaning;

/// Where a program is well typed and its addresses are words, and its operations are laid out in an image, the machine runs the image
/// as the program's meaning runs: from each start that the program has, for every region, all globals and every schedule. So all can
/// see the same in the whole run of an image that begins as the program does. The image that is defined for the operations is laid
/// out so. Already where the operations ask what the meaning says, they run so on the machine.
pub fn compiled_programs_run_as_meant()
    ensures alike { (p : Program) (image : Contents) (l : Layout) (start : Start) → IsWellTyped p → AddressesAreWords p → IsLaidOut (lowered p) image l → IsKnownStart p start → SimulatesFrom (source p) (machine image) start }
    ensures runs { (p : Program) (image : Contents) (region : ℕ) (h : List Entry) → IsWellTyped p → AddressesAreWords p → IsCompiledTo p image → meant p region h ≡ seen_of_image image region h }
    ensures made { (p : Program) (image : Contents) (start : Start) → IsWellTyped p → AddressesAreWords p → IsMadeOf p image → IsKnownStart p start → SimulatesFrom (source p) (machine image) start }
    ensures operations { (p : Program) (image : Contents) (l : Layout) (start : Start) → Lowered p (lowered p) → IsLaidOut (lowered p) image l → IsKnownStart p start → SimulatesFrom (tasks (lowered p)) (machine image) start }
{
    lowering_keeps_the_meaning();
}
