// The law on images that were generated.

ghost use Rattle.std.specs.Prelude.{◌≡◌, ◌<◌, ◌≤◌, ◌^◌, ℕ, List, length};
ghost use Rattle.al_typed.specs.declared.program.Program.{Program};
ghost use Rattle.al_typed.specs.WellTyped.{IsWellTyped};
ghost use Rattle.al_ir.specs.Bounds.{IsBounded};
ghost use Rattle.al_lower_code.specs.Functions.{globals, lowered};
ghost use Rattle.al_lowering.specs.Addresses.{AddressesAreWords};
ghost use Rattle.al_lowering.specs.Runs.{StringsAreBytes};
ghost use Rattle.rv_isa.specs.declared.image.Contents.{Contents};
ghost use Rattle.rv_gen.specs.Generating.{IsGenerated};
ghost use Rattle.rv_compiled.specs.Compiled.{IsCompiledTo, IsMadeOf};
ghost use Rattle.rv_meant.specs.Meant.{TakeEquallyMany, IsCompilable, RunsAlike, SimulatesAlike};

use al_lowering::lowering_keeps_the_meaning;
use al_opened::opened_programs_have_addresses;
use rv_compiled::compiled_programs_run_as_meant;

/// The image that was generated of a program's operations runs as the program means, where the operations keep the bounds that code
/// is made for and the image has fewer than 2^23 words. Where the first world has room for the globals and strings, each of their
/// addresses is a word; else all see in both that memory ran out at the start. The functions of one type take equally many words, so
/// that each can be called through one pointer. Where there are at most 65,536 blocks, the image begins with the program's. No region
/// has room for more. The characters of strings are bytes, since the items that they are lowered to have their bounds.
pub fn images_run_as_meant()
    ensures runs { (p : Program) (image : Contents) → IsGenerated (lowered p) image → IsBounded (lowered p) → length image.code < 2 ^ 23 → IsCompilable p → RunsAlike p image }
    ensures simulates { (p : Program) (image : Contents) → IsGenerated (lowered p) image → IsBounded (lowered p) → length image.code < 2 ^ 23 → IsWellTyped p → AddressesAreWords p → SimulatesAlike p image }
    ensures made { (p : Program) (image : Contents) → IsGenerated (lowered p) image → IsBounded (lowered p) → TakeEquallyMany (lowered p) → length image.code < 2 ^ 23 → IsMadeOf p image }
    ensures compiled { (p : Program) (image : Contents) → IsGenerated (lowered p) image → IsBounded (lowered p) → length image.code < 2 ^ 23 → IsWellTyped p → length (globals p) ≤ 65536 → IsCompiledTo p image }
    ensures equally { (p : Program) → IsWellTyped p → TakeEquallyMany (lowered p) }
    ensures bytes { (p : Program) → IsBounded (lowered p) → StringsAreBytes p }
{
    lowering_keeps_the_meaning();
    opened_programs_have_addresses();
    compiled_programs_run_as_meant();
}
