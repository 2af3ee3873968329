//! What the layers above know of a logic unit.

ghost use Rattle.std.specs.Prelude.{◌≡◌, ◌<◌};
ghost use Rattle.hmc_units.specs.Unit.{UnitFields, acted_by, worked_unit};

use hmc_codes::Acted;

/// A unit that works on blocks of 16 bytes. It is known by its cube, its code and its state, and by
/// two functions of a state, a block and an operand.
pub trait LogicUnit: Drop {
    /// The cube, the code, the state and the two functions.
    ghost meaning: { Self → UnitFields };

    /// The cube whose requests it serves, below 8.
    fn cube(&self) -> u8
        ensures cube { result ≡ (meaning self.now).cube }
        ensures below { result < 8 };

    /// The code of the unit commands that it serves, below 8.
    fn code(&self) -> u8
        ensures code { result ≡ (meaning self.now).code }
        ensures below { result < 8 };

    /// Works on a block with an operand. Only the unit's state changes.
    fn work(&mut self, block: [u8; 16], operand: [u8; 16]) -> Acted
        ensures acted { result ≡ acted_by (meaning self.old) block operand }
        ensures unit { meaning self.new ≡ worked_unit (meaning self.old) block operand };
}
