//! The words of commands.

ghost use Rattle.std.specs.Prelude.{◌≡◌, IfSome};
ghost use Rattle.hmc_codes.specs.Commands.{family_of};
ghost use Rattle.hmc_codes.specs.declared.family.Family.TheVariants as families;
ghost use Rattle.hmc_script.specs.Commands.{command_of, first_tried, second_tried, IsNoneOf};

use hmc_codes::Command;
use std::str;

// The request with this word. The words are tried one by one, so those that most scripts have come
// first. They are in three parts, as the time of a proof grows faster than a match.
#[tactic(auto, unfolding(crate::specs::Commands::command_of, crate::specs::Commands::requests, hmc_codes::specs::Codes::all_commands, hmc_codes::specs::Table::table_line))]
fn with_word(word: &str) -> Option<Command>
    ensures { result ≡ command_of word.now }
{
    match word {
        "rd16" => Some(Command::Rd16),
        "wr16" => Some(Command::Wr16),
        "rd32" => Some(Command::Rd32),
        "wr32" => Some(Command::Wr32),
        "rd64" => Some(Command::Rd64),
        "wr64" => Some(Command::Wr64),
        "rd128" => Some(Command::Rd128),
        "wr128" => Some(Command::Wr128),
        "rd256" => Some(Command::Rd256),
        "wr256" => Some(Command::Wr256),
        "rd48" => Some(Command::Rd48),
        "wr48" => Some(Command::Wr48),
        "rd80" => Some(Command::Rd80),
        "wr80" => Some(Command::Wr80),
        "rd96" => Some(Command::Rd96),
        "wr96" => Some(Command::Wr96),
        "rd112" => Some(Command::Rd112),
        "wr112" => Some(Command::Wr112),
        _ => with_other_word(word),
    }
}

// The same of a word that is none of the first.
#[tactic(auto, unfolding(crate::specs::Commands::command_of, crate::specs::Commands::requests, hmc_codes::specs::Codes::all_commands, hmc_codes::specs::Table::table_line))]
fn with_other_word(word: &str) -> Option<Command>
    requires first { IsNoneOf word.now first_tried }
    ensures { result ≡ command_of word.now }
{
    match word {
        "pwr16" => Some(Command::Pwr16),
        "pwr32" => Some(Command::Pwr32),
        "pwr48" => Some(Command::Pwr48),
        "pwr64" => Some(Command::Pwr64),
        "pwr80" => Some(Command::Pwr80),
        "pwr96" => Some(Command::Pwr96),
        "pwr112" => Some(Command::Pwr112),
        "pwr128" => Some(Command::Pwr128),
        "pwr256" => Some(Command::Pwr256),
        "mdwr" => Some(Command::Mdwr),
        "mdrd" => Some(Command::Mdrd),
        "bwr" => Some(Command::Bwr),
        "2add8" => Some(Command::TwoAdd8),
        "add16" => Some(Command::Add16),
        "pbwr" => Some(Command::Pbwr),
        "p2add8" => Some(Command::PtwoAdd8),
        "padd16" => Some(Command::Padd16),
        "bwr8r" => Some(Command::Bwr8r),
        "2adds8r" => Some(Command::TwoAdds8r),
        "adds16r" => Some(Command::Adds16r),
        "xor16" => Some(Command::Xor16),
        "or16" => Some(Command::Or16),
        _ => with_last_word(word),
    }
}

// The same of a word that is none of the first and second.
#[tactic(auto, unfolding(crate::specs::Commands::command_of, crate::specs::Commands::requests, hmc_codes::specs::Codes::all_commands, hmc_codes::specs::Table::table_line))]
fn with_last_word(word: &str) -> Option<Command>
    requires first { IsNoneOf word.now first_tried }
    requires second { IsNoneOf word.now second_tried }
    ensures { result ≡ command_of word.now }
{
    match word {
        "nor16" => Some(Command::Nor16),
        "and16" => Some(Command::And16),
        "nand16" => Some(Command::Nand16),
        "inc8" => Some(Command::Inc8),
        "pinc8" => Some(Command::Pinc8),
        "casgt8" => Some(Command::Casgt8),
        "caslt8" => Some(Command::Caslt8),
        "casgt16" => Some(Command::Casgt16),
        "caslt16" => Some(Command::Caslt16),
        "caseq8" => Some(Command::Caseq8),
        "caszero16" => Some(Command::Caszero16),
        "eq16" => Some(Command::Eq16),
        "eq8" => Some(Command::Eq8),
        "swap16" => Some(Command::Swap16),
        "unit0" => Some(Command::Unit0),
        "unit1" => Some(Command::Unit1),
        "unit2" => Some(Command::Unit2),
        "unit3" => Some(Command::Unit3),
        "unit4" => Some(Command::Unit4),
        "unit5" => Some(Command::Unit5),
        "unit6" => Some(Command::Unit6),
        "unit7" => Some(Command::Unit7),
        _ => None,
    }
}

/// The request with this word.
pub fn command_of(word: &[u8]) -> Option<Command>
    ensures value { result ≡ command_of word.now }
    ensures asks { IfSome result (λ command. family_of command ≡ families.Ask) }
{
    let Ok(word) = str::from_utf8(word) else {
        return None;
    };
    with_word(word)
}
