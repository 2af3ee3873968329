//! Boxed units, whose kind is known only by the interface.

use crate::LogicUnit;
use hmc_codes::Acted;

impl LogicUnit for Box<dyn LogicUnit> {
    ghost meaning = { λ unit. (LogicUnit-box unit).meaning unit.value };

    fn cube(&self) -> u8 {
        (**self).cube()
    }

    fn code(&self) -> u8 {
        (**self).code()
    }

    fn work(&mut self, block: [u8; 16], operand: [u8; 16]) -> Acted {
        (**self).work(block, operand)
    }
}
