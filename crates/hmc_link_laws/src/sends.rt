//! What a send gives.

ghost use Rattle.std.specs.Prelude.{◌≡◌, ◌↔◌, ◌≤◌, ◌<◌, ℕ, true, List};
ghost use Rattle.hmc_codes.specs.Flit.{zero_flit};
ghost use Rattle.hmc_codes.specs.declared.profile.Profile.{Profile};
ghost use Rattle.hmc_packet.specs.declared.what.What.TheVariants.{Null};
ghost use Rattle.hmc_packet.specs.Packet.{PacketFields};
ghost use Rattle.hmc_send.specs.declared.sent.Sent.TheVariants.{Out, Starved};
ghost use Rattle.hmc_send.specs.Choice.{SendView, choice, next_of_view};
ghost use Rattle.hmc_send.specs.SendRows.{send_rows};
ghost use Rattle.hmc_tokens.specs.Account.{code_for, tokens_of_code};
ghost use Rattle.hmc_link_laws.specs.Sends.{is_starved, GiveNothing};

/// A send gives nothing exactly where the receiver at its end is trained, a packet that is
/// forwarded is under way, and its next flit isn't there.
pub fn starved_sends_wait()
    ensures { (profile : Profile) (s : SendView) →
        (choice profile s ≡ Starved) ↔ (is_starved s ≡ true) }
{}

/// A NULL is sent exactly where none of the nine rows before it gives something, and it is 16 bytes
/// of zero.
pub fn nulls_come_last()
    ensures rows { (profile : Profile) (s : SendView) (flit : List ℕ) →
        choice profile s ≡ Out flit Null → GiveNothing (send_rows profile) s }
    ensures null { (profile : Profile) (s : SendView) →
        GiveNothing (send_rows profile) s → choice profile s ≡ Out zero_flit Null }
{}

/// A packet that is begun returns due tokens by the greatest of the eight codes whose tokens are
/// due.
pub fn one_code_returns_most()
    ensures code { (profile : Profile) (s : SendView) (packet : PacketFields) →
        (next_of_view profile s packet).rtc ≡ code_for s.given.due }
    ensures least { (due : ℕ) → code_for due < 8 }
    ensures is_due { (due : ℕ) → tokens_of_code (code_for due) ≤ due }
    ensures greatest { (due code : ℕ) → code < 8 → tokens_of_code code ≤ due →
        code ≤ code_for due }
{}
