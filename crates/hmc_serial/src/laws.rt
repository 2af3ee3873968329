//! Laws of `perform_on` and of new cubes. Each is the contract of a function that does nothing.

ghost use Rattle.std.specs.Prelude.{◌≡◌, ◌<◌, ◌^◌, ℕ, List, Option, true, false};
ghost use Rattle.hmc_codes.specs.Answer.{CanReply, IsAnswer};
ghost use Rattle.hmc_codes.specs.Commands.{is_posted};
ghost use Rattle.hmc_codes.specs.Request.{RequestFields, IsRequest};
ghost use Rattle.hmc_codes.specs.Shape.{ShapeFields, IsShape};
ghost use Rattle.hmc_codes.specs.declared.answer.Answer.TheVariants.{Silent};
ghost use Rattle.hmc_units.specs.Unit.{UnitFields};
ghost use Rattle.hmc_serial.specs.Cube.{CubeState, IsCube, opening};
ghost use Rattle.hmc_serial.specs.Perform.{perform_on};

/// The answer to a posted request is `Silent`. A response can carry the answer to any other
/// request. The number and the bytes of each answer fit their types. This holds for all logic
/// units.
pub fn answers_can_be_carried()
    ensures silent { (cube : CubeState) (slots : List (Option UnitFields))
        (request : RequestFields) → IsCube cube → IsRequest request →
        is_posted request.command ≡ true → (perform_on cube slots request).answer ≡ Silent }
    ensures carried { (cube : CubeState) (slots : List (Option UnitFields))
        (request : RequestFields) → IsCube cube → IsRequest request →
        is_posted request.command ≡ false → CanReply (perform_on cube slots request).answer }
    ensures fits { (cube : CubeState) (slots : List (Option UnitFields))
        (request : RequestFields) → IsCube cube → IsRequest request →
        IsAnswer (perform_on cube slots request).answer }
{}

/// A new cube keeps `IsCube`, and so does each cube that performs a request, with all logic units.
pub fn cubes_stay_cubes()
    ensures opening { (shape : ShapeFields) (number : ℕ) → IsShape shape → number < 2 ^ 32 →
        IsCube (opening shape number) }
    ensures performed { (cube : CubeState) (slots : List (Option UnitFields))
        (request : RequestFields) → IsCube cube → IsRequest request →
        IsCube (perform_on cube slots request).cube }
{}
