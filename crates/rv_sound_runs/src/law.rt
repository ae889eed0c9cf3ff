// The law on images of accepted texts.

ghost use Rattle.std.specs.Prelude.{◌<◌, ◌^◌, ℕ, List, length};
ghost use Rattle.al_typed.specs.declared.program.Program.{Program};
ghost use Rattle.al_front.specs.Accepted.{IsAccepted};
ghost use Rattle.al_ir.specs.Bounds.{IsBounded};
ghost use Rattle.al_lower_code.specs.Functions.{lowered};
ghost use Rattle.rv_isa.specs.declared.image.Contents.{Contents};
ghost use Rattle.rv_gen.specs.Generating.{IsGenerated};
ghost use Rattle.rv_meant.specs.Meant.{IsCompilable, RunsAlike};

use rv_meant::images_run_as_meant;

/// The program of each text that is accepted can be compiled. So the image that was generated of its operations runs as the text means: in each
/// region of at most 2^28 bytes and along every schedule all see the same in both runs. Where the region has no room for the globals and
/// strings, both are over at their start.
pub fn accepted_texts_run_as_meant()
    ensures compilable { (text : List ℕ) (p : Program) → IsAccepted text p → IsCompilable p }
    ensures runs { (text : List ℕ) (p : Program) (image : Contents) → IsAccepted text p → IsGenerated (lowered p) image → IsBounded (lowered p) → length image.code < 2 ^ 23 → RunsAlike p image }
{
    images_run_as_meant();
}
