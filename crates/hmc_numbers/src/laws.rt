//! The laws of a direction and of two directions, for each size of the retry buffer.

ghost use Rattle.std.specs.Prelude.{◌≡◌, ◌≢◌, ℕ, ◌+◌, ◌%◌, ◌≤◌, List, ◌∷◌, ◌++◌, length};
ghost use Rattle.hmc_codes.specs.declared.profile.Profile.{Profile};
ghost use Rattle.hmc_numbers.specs.Always.{Always, AlwaysBoth};
ghost use Rattle.hmc_numbers.specs.Direction.{Item, begun, position};
ghost use Rattle.hmc_numbers.specs.Direction.Filler.{start, train};
ghost use Rattle.hmc_numbers.specs.Direction.Item.{clear, filler, part};
ghost use Rattle.hmc_numbers.specs.Direction.Reached.{training};
ghost use Rattle.hmc_numbers.specs.DirectionLaws.{DirectionLaws, ContinuesGathered, IsPlaced, PassesNext, PassesRepeat};
ghost use Rattle.hmc_numbers.specs.Events.{Event, happens};
ghost use Rattle.hmc_numbers.specs.Events.Reading.{as_clear, as_start};
ghost use Rattle.hmc_numbers.specs.May.{CanReadAs, IsGood, IsShut, May};
ghost use Rattle.hmc_numbers.specs.PairLaws.{HalfLaws, Points, Rising};
ghost use Rattle.hmc_numbers.specs.Places.{places, put_by, taken_by};
ghost use Rattle.hmc_codes.specs.Profile.{window_of};
ghost use Rattle.hmc_numbers.specs.Pointers.{pointer};
ghost use Rattle.hmc_numbers.specs.Tokens.{cost_accepted, cost_begun, due_tokens, held_tokens, returning_tokens, tokens_accepted, tokens_begun, transit_tokens, used_tokens};
ghost use Rattle.hmc_numbers.specs.Turns.{MayCount, MayHere};
ghost use Rattle.hmc_numbers.specs.Weights.{flits_to, size};

/// Packets are begun, then accepted, then acknowledged. Until it is acknowledged a packet is in the
/// retry buffer.
pub fn accepts_what_was_begun()
    ensures accepted { (retry : ℕ) → Always retry (λ w. w.accepted ≤ begun w) }
    ensures acknowledged { (retry : ℕ) → Always retry (λ w. w.acked ≤ w.accepted) }
    ensures kept { (retry : ℕ) →
        Always retry (λ w. flits_to w.first (begun w) ≤ flits_to w.first w.acked + retry) }
{}

/// The sender sends again only what it has begun, and begins nothing during a burst of Clears. A
/// packet that is being sent was begun, and has that many flits left at most.
pub fn sends_what_was_begun()
    ensures position { (retry : ℕ) → Always retry (λ w. position w ≤ begun w) }
    ensures burst { (retry : ℕ) → Always retry (λ w. w.clears % 32 ≢ 0 → w.last ≡ 0) }
    ensures first { (retry : ℕ) → Always retry (λ w. 1 ≤ w.left → 1 ≤ w.last) }
    ensures begun { (retry : ℕ) → Always retry (λ w. 1 ≤ w.left → w.last ≤ begun w) }
    ensures left { (retry : ℕ) → Always retry (λ w. 1 ≤ w.left → w.left ≤ size w.first w.last) }
{}

/// What lands of a packet is what was sent of it. A receiver in Good gets packets whole and no two
/// mixed, and no training flit.
pub fn keeps_packets_whole()
    ensures placed { (retry n k more : ℕ) (xs : List Item) →
        Always retry (λ w. w.line ≡ part n k more ∷ xs → IsPlaced w.first (begun w) n k more) }
    ensures whole { (retry : ℕ) (x : Item) (xs : List Item) →
        Always retry (λ w. w.line ≡ x ∷ xs → ContinuesGathered w.far x) }
    ensures trained { (retry : ℕ) (xs : List Item) →
        Always retry (λ w. IsGood w.far → w.line ≡ filler train ∷ xs → ⊥) }
{}

/// A receiver in Good gets no packet after the next one before it gets the next one.
pub fn skips_no_packet()
    ensures at_most_next { (retry n k more : ℕ) (xs : List Item) →
        Always retry (λ w. IsGood w.far → w.line ≡ part n k more ∷ xs → n ≤ w.accepted + 1) }
{}

/// Where the retry buffer is no larger than the window, the tests of a receiver in Good show
/// whether a packet is the next one or a repeat. So it is never out of order.
pub fn shows_repeats()
    ensures next { (profile : Profile) (retry n k : ℕ) (xs : List Item) →
        retry ≤ window_of profile →
        Always retry (λ w. IsGood w.far → w.line ≡ part n k 0 ∷ xs →
        n ≡ w.accepted + 1 → PassesNext profile w n) }
    ensures not_next { (profile : Profile) (retry n k : ℕ) (xs : List Item) →
        retry ≤ window_of profile →
        Always retry (λ w. IsGood w.far → w.line ≡ part n k 0 ∷ xs →
        n ≤ w.accepted → PassesNext profile w n → ⊥) }
    ensures repeated { (profile : Profile) (retry n k : ℕ) (xs : List Item) →
        retry ≤ window_of profile →
        Always retry (λ w. IsGood w.far → w.line ≡ part n k 0 ∷ xs →
        n ≤ w.accepted → PassesRepeat profile w n) }
{}

/// Where the retry buffer is no larger than the window, a return pointer names one number of
/// packets between those acknowledged and those begun.
pub fn shows_acknowledged()
    ensures one { (profile : Profile) (retry i j : ℕ) → retry ≤ window_of profile →
        Always retry (λ w.
        w.acked ≤ i → i ≤ begun w → w.acked ≤ j → j ≤ begun w →
        pointer profile w.first i ≡ pointer profile w.first j → i ≡ j) }
{}

/// The 17th and each later flit of a run that reads as IRTRYs was sent as one, so the 24th was too.
pub fn counts_real_runs()
    ensures clears { (retry : ℕ) (x : Item) (xs : List Item) →
        Always retry (λ w.
        w.line ≡ x ∷ xs → CanReadAs x as_clear → 16 ≤ w.clear_run → x ≡ clear) }
    ensures starts { (retry : ℕ) (x : Item) (xs : List Item) →
        Always retry (λ w.
        w.line ≡ x ∷ xs → CanReadAs x as_start → 16 ≤ w.start_run → x ≡ filler start) }
{}

/// A direction is a first-in first-out list of requests and responses: each event adds at its end
/// and takes from its front.
pub fn is_a_list()
    ensures steps { (retry : ℕ) (e : Event) →
        Always retry (λ w. May retry w e →
        places w ++ put_by w e ≡ taken_by w e ++ places (happens w e)) }
{}

/// A return pointer that is taken was sent as one, and acknowledges what its sender's end had
/// accepted when it sent it. Later flits carry no lower one.
pub fn acknowledges_what_was_accepted()
    ensures stamped { (retry advertised : ℕ) →
        AlwaysBoth retry advertised (λ own other. length own.stamps ≡ length own.direction.line) }
    ensures rising { (retry advertised : ℕ) →
        AlwaysBoth retry advertised (λ own other.
        Rising other.direction.acked own.stamps other.direction.accepted) }
    ensures sent { (retry advertised : ℕ) (e : Event) (x : Item) (xs : List Item) →
        AlwaysBoth retry advertised (λ own other.
        MayHere retry advertised own other e → MayCount own.direction e →
        own.direction.line ≡ x ∷ xs → Points x) }
{}

/// While the receiver at its end is in Train, a sender is sending no packet and has sent no Clear,
/// and the far receiver is in Train or Abort.
pub fn trains_first()
    ensures idle { (retry advertised : ℕ) →
        AlwaysBoth retry advertised (λ own other.
        other.direction.far ≡ training → (own.direction.left ≡ 0) × (own.direction.clears ≡ 0)) }
    ensures shut { (retry advertised : ℕ) →
        AlwaysBoth retry advertised (λ own other.
        other.direction.far ≡ training → IsShut own.direction.far) }
{}

/// Each advertised token is in one of five places. None of their numbers is below zero: what is
/// taken off is never more than what it is taken off.
pub fn keeps_tokens()
    ensures held { (retry advertised : ℕ) →
        AlwaysBoth retry advertised (λ own other.
        cost_begun own.direction ≤ tokens_accepted other.direction) }
    ensures transit { (retry advertised : ℕ) →
        AlwaysBoth retry advertised (λ own other.
        cost_accepted own.direction ≤ cost_begun own.direction) }
    ensures used { (retry advertised : ℕ) →
        AlwaysBoth retry advertised (λ own other. own.moved ≤ cost_accepted own.direction) }
    ensures due { (retry advertised : ℕ) →
        AlwaysBoth retry advertised (λ own other.
        tokens_begun other.direction ≤ advertised + own.moved) }
    ensures returning { (retry advertised : ℕ) →
        AlwaysBoth retry advertised (λ own other.
        tokens_accepted other.direction ≤ tokens_begun other.direction) }

    // The input buffer has room for each packet that is accepted.
    ensures fits { (retry advertised : ℕ) →
        AlwaysBoth retry advertised (λ own other. used_tokens own ≤ advertised) }
    ensures sum { (retry advertised : ℕ) →
        AlwaysBoth retry advertised (λ own other.
        held_tokens own other + transit_tokens own + used_tokens own +
        due_tokens advertised own other + returning_tokens other ≡ advertised) }
{}

/// All laws of a direction as one record, as the layers above cite them.
pub fn in_order()
    ensures laws { (profile : Profile) (retry : ℕ) → retry ≤ window_of profile →
        Always retry (λ w. DirectionLaws profile retry w) }
{}

/// All laws of two directions as one record each, as the layers above cite them.
pub fn joined()
    ensures laws { (profile : Profile) (retry advertised : ℕ) → retry ≤ window_of profile →
        AlwaysBoth retry advertised (λ own other. HalfLaws profile retry advertised own other) }
{}
