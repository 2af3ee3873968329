//! Receivers.

ghost use Rattle.std.specs.Prelude.{◌≡◌, ◌<◌, ◌++◌, [], ◌∷◌, ℕ, true, List, length, None, IfOk};
ghost use Rattle.hmc_codes.specs.Profile.{modulus_of};
ghost use Rattle.hmc_codes.specs.declared.profile.Profile.{Profile};
ghost use Rattle.hmc_irtry.specs.Runs.{run_of, after_seen};
ghost use Rattle.hmc_packet.specs.declared.view.Mode.TheVariants.{Train, Abort, Good};
ghost use Rattle.hmc_packet.specs.Irtry.{irtry_in};
ghost use Rattle.hmc_packet.specs.Landings.{ReceiverEntry, is_training, pending, receiver_view};
ghost use Rattle.hmc_packet.specs.Landings.ReceiverEntry.{Land, Unlock};
ghost use Rattle.hmc_packet.specs.Reading.{IsSpelled, read_of};
ghost use Rattle.hmc_packet.specs.Receptions.{unchecked, checked, train_reception, irtry_reception, abort_reception, is_next, is_repeat, sequenced_outcome, is_no_length, lng_with, packet_reception, read_reception, good_reception, reception_by, reception_of, landing_entry};
ghost use Rattle.hmc_receive.specs.Receiver.{IsReceiver, is_partial, view_of, mode_ran, after_other, after_abort, after_gathered, after_irtry, after_accepted, after_sequenced, after_packet, after_training, after_alone, after_unlock, Follows};
ghost use Rattle.hmc_receive.specs.StandsFor.{latest, ReceiverStandsFor, landing_of};

use crate::Landing;
use crate::landing::landed_with;
use arrayvec::ArrayVec;
use hmc_codes::{Flit, Layout, Profile};
use hmc_irtry::{Counted, Runs, Train, irtry_of, is_training};
use hmc_packet::{Bad, Kind, Mode, Outcome, Packet, Reception, Seen, View, is_null, lng_of, read};
use std::marker::Model;

/// The end of a link at which flits land.
///
/// Contracts see it as the list of its landings and unlocks, through `ReceiverStandsFor`.
#[derive(Drop)]
pub struct Receiver {
    profile: Profile,
    mode: Mode,
    train: Train,
    runs: Runs,
    // The forward pointer of the packet accepted last, and the number of accepted packets modulo 8.
    frp: u16,
    seq: u8,
    // The packet accepted last: kept here so that no landing hands out more than a few bytes.
    packet: Packet,
    // The flits of a packet that isn't whole yet.
    gathered: ArrayVec<Flit, 17>,
}

impl Model for Receiver {
    ghost use Rattle.hmc_receive.specs.Receiver.{ReceiverFields, IsReceiver};

    ghost Value = { ReceiverFields };

    ghost view = { λ r. record {
      profile = r.profile;
      mode = r.mode;
      train = r.train;
      runs = r.runs;
      frp = r.frp;
      seq = r.seq;
      packet = r.packet;
      gathered = r.gathered.items;
    } };

    ghost invariant = { λ r. IsReceiver (record {
      profile = r.profile;
      mode = r.mode;
      train = r.train;
      runs = r.runs;
      frp = r.frp;
      seq = r.seq;
      packet = r.packet;
      gathered = r.gathered.items;
    }) };
}

// No check succeeds, and no pointer is taken.
fn unchecked(outcome: Outcome) -> Reception
    ensures { result ≡ unchecked outcome }
{
    Reception {
        outcome,
        rrp: None,
        checked: false,
    }
}

// A check succeeds.
fn checked(outcome: Outcome, rrp: Option<u16>) -> Reception
    ensures { result ≡ checked outcome rrp }
{
    Reception {
        outcome,
        rrp,
        checked: true,
    }
}

// Whether no packet has this length.
fn is_no_length(lng: u8) -> bool
    ensures { result ≡ is_no_length lng }
{
    lng == 0 || 17 < lng
}

// The mode after a run: one of Clears opens the receiver.
fn mode_ran(kind: Kind, before: Mode) -> Mode
    ensures { result ≡ mode_ran kind before }
{
    match kind {
        Kind::Start => before,
        Kind::Clear => Mode::Good,
    }
}

impl Receiver {
    ghost use Rattle.hmc_receive.specs.Receiver.{ReceiverFields};

    /// A receiver that nothing came to. It waits for training.
    #[tactic(auto, unfolding(hmc_packet::specs::Landings::mode, hmc_packet::specs::Landings::pending, hmc_packet::specs::Landings::run, hmc_packet::specs::Landings::training, hmc_packet::specs::Landings::accepted, crate::specs::StandsFor::latest))]
    pub fn new(profile: Profile) -> Self
        ensures { ReceiverStandsFor profile result [] }
    {
        Receiver {
            profile,
            mode: Mode::Train,
            train: Train::new(profile),
            runs: Runs::new(),
            frp: 0,
            seq: 0,
            packet: Packet::null(),
            gathered: ArrayVec::new(),
        }
    }

    // The run of IRTRYs is over.
    fn end_run(&mut self)
        ensures { self.new ≡ record self.old { runs = after_seen None self.old.runs } }
    {
        self.runs.see(None);
    }

    // A flit that belongs to no run and is not gathered.
    fn see_other(&mut self)
        ensures { self.new ≡ after_other self.old }
    {
        self.end_run();
        self.gathered.clear();
    }

    // Packets are lost until the next run of Clears.
    fn abort(&mut self)
        ensures { self.new ≡ after_abort self.old }
    {
        self.see_other();
        self.mode = Mode::Abort;
    }

    // Counts an IRTRY. The last of a run of Clears opens the receiver.
    fn see_irtry(&mut self, kind: Kind, rrp: u16) -> Reception
        ensures value { result ≡ irtry_reception (run_of kind self.old.runs) kind rrp }
        ensures left { self.new ≡ after_irtry kind rrp self.old }
    {
        self.gathered.clear();
        match self.runs.see(Some((kind, rrp))) {
            Counted::Below => checked(Outcome::Quiet, None),
            Counted::Now => {
                self.mode = mode_ran(kind, self.mode);
                checked(Outcome::Ran(kind), Some(rrp))
            }
            Counted::After => checked(Outcome::Quiet, Some(rrp)),
        }
    }

    // Gathers a flit of a packet that isn't whole with it.
    fn gather(&mut self, flit: &Flit)
        requires partial { is_partial (self.old.gathered ++ flit.now ∷ []) ≡ true }
        ensures { self.new ≡ after_gathered flit.now self.old }
    {
        self.end_run();
        self.gathered.push(*flit);
    }

    // Accepts a packet, whose pointer is the next one.
    fn accept(&mut self, packet: &Packet)
        requires pointer { packet.now.frp < modulus_of self.old.profile }
        ensures { self.new ≡ after_accepted packet.now self.old }
    {
        self.see_other();
        packet.invariant();
        self.frp = packet.frp;
        self.seq = packet.seq;
        self.packet = *packet;
    }

    // Whether a packet is the next one.
    fn is_next(&self, packet: &Packet) -> bool
        ensures { result ≡ is_next self.now.profile (view_of self.now) packet.now }
    {
        let frp = (self.frp + u16::from(packet.flits())) % self.profile.modulus();
        packet.frp == frp && packet.seq == (self.seq + 1) % 8
    }

    // Whether a packet ends less than half of the modulus behind the one accepted last.
    fn is_repeat(&self, packet: &Packet) -> bool
        requires pointer { packet.now.frp < modulus_of self.now.profile }
        ensures { result ≡ is_repeat self.now.profile (view_of self.now) packet.now }
    {
        let modulus = self.profile.modulus();
        (self.frp + (modulus - packet.frp)) % modulus < modulus / 2
    }

    // A sequenced packet came.
    fn take_sequenced(&mut self, packet: &Packet) -> Outcome
        requires pointer { packet.now.frp < modulus_of self.old.profile }
        ensures value { result
            ≡ sequenced_outcome self.old.profile (view_of self.old) packet.now }
        ensures left { self.new ≡ after_sequenced packet.now self.old }
    {
        if self.is_next(packet) {
            self.accept(packet);
            return if packet.poisoned {
                Outcome::Poisoned
            } else {
                Outcome::Accepted
            };
        }
        if self.is_repeat(packet) {
            self.see_other();
            return Outcome::Repeat;
        }
        self.abort();
        Outcome::AbortedOrder
    }

    // A packet came, of this layout.
    fn take_packet(&mut self, layout: Layout, seen: &Seen) -> Reception
        requires pointer { seen.now.packet.frp < modulus_of self.old.profile }
        ensures value { result
            ≡ packet_reception self.old.profile (view_of self.old) layout seen.now }
        ensures left { self.new ≡ after_packet layout seen.now self.old }
    {
        match layout {
            Layout::Null => {
                self.see_other();
                checked(Outcome::Quiet, None)
            }
            Layout::Irtry => self.see_irtry(Kind::of_pointer(seen.packet.frp), seen.rrp),
            Layout::Pret => {
                self.see_other();
                checked(Outcome::Quiet, Some(seen.rrp))
            }
            Layout::Tret | Layout::Ask | Layout::Reply => {
                checked(self.take_sequenced(&seen.packet), Some(seen.rrp))
            }
        }
    }

    // The last flit of a packet came. Alone it may be an IRTRY, of which no packet is made.
    #[inline(never)]
    fn land_last(&mut self, flit: &Flit) -> Reception
        requires good { self.old.mode ≡ Good }
        requires few { length self.old.gathered < 17 }
        ensures value { result ≡ read_reception self.old.profile (view_of self.old)
            (read_of self.old.profile (self.old.gathered ++ flit.now ∷ [])) }
        ensures follows { Follows self.old self.new (Land flit.now result.outcome) }
    {
        if self.gathered.is_empty() {
            if let Some((kind, rrp)) = irtry_of(flit, self.profile) {
                return self.see_irtry(kind, rrp);
            }
        }
        self.read_last(flit)
    }

    // The same of each flit. All of them are read where they are gathered.
    fn read_last(&mut self, flit: &Flit) -> Reception
        requires good { self.old.mode ≡ Good }
        requires few { length self.old.gathered < 17 }
        ensures value { result ≡ read_reception self.old.profile (view_of self.old)
            (read_of self.old.profile (self.old.gathered ++ flit.now ∷ [])) }
        ensures follows { Follows self.old self.new (Land flit.now result.outcome) }
    {
        self.gathered.push(*flit);
        let read = read(self.gathered.as_slice(), self.profile);
        self.gathered.clear();
        match read {
            Err(bad) => {
                self.abort();
                unchecked(Outcome::AbortedBad(bad))
            }
            Ok(seen) => self.take_packet(seen.packet.command.layout(), &seen),
        }
    }

    // The LNG of the packet that a flit belongs to.
    fn lng_with(&self, flit: &Flit) -> u8
        ensures { result ≡ lng_with self.now.gathered flit.now }
    {
        match self.gathered.as_slice() {
            [] => lng_of(flit),
            [first, ..] => lng_of(first),
        }
    }

    // A flit of a packet came, or a NULL.
    #[inline(always)]
    fn land_in_good(&mut self, flit: &Flit) -> Reception
        requires good { self.old.mode ≡ Good }
        ensures value { result ≡ good_reception self.old.profile (view_of self.old) flit.now }
        ensures follows { Follows self.old self.new (Land flit.now result.outcome) }
    {
        let first = self.gathered.is_empty();
        if first && is_null(flit) {
            self.see_other();
            return checked(Outcome::Quiet, None);
        }
        if first && is_no_length(lng_of(flit)) {
            self.abort();
            return unchecked(Outcome::AbortedBad(Bad::Length));
        }
        if self.gathered.len() + 1 < usize::from(self.lng_with(flit)) {
            self.gather(flit);
            return unchecked(Outcome::Gathered);
        }
        self.land_last(flit)
    }

    // A flit came in Abort, where each is read alone.
    #[inline(never)]
    fn land_in_abort(&mut self, flit: &Flit) -> Reception
        ensures value { result ≡ abort_reception (view_of self.old)
            (irtry_in self.old.profile flit.now) }
        ensures left { self.new ≡ after_alone (irtry_in self.old.profile flit.now) self.old }
    {
        match irtry_of(flit, self.profile) {
            None => {
                self.see_other();
                unchecked(Outcome::Quiet)
            }
            Some((kind, rrp)) => self.see_irtry(kind, rrp),
        }
    }

    // A flit came in Train.
    #[inline(never)]
    fn land_in_train(&mut self, flit: &Flit) -> Reception
        ensures value { result ≡ train_reception self.old.profile (view_of self.old) flit.now }
        ensures left { self.new
            ≡ after_training (is_training self.old.profile flit.now) self.old }
    {
        self.see_other();
        let trains = is_training(flit, self.profile);
        if self.train.see(flit) {
            self.mode = Mode::Abort;
            return checked(Outcome::Trained, None);
        }
        if trains {
            checked(Outcome::Quiet, None)
        } else {
            unchecked(Outcome::Quiet)
        }
    }

    // A flit came.
    #[tactic(auto, unfolding(hmc_packet::specs::Receptions::reception_by))]
    #[inline(always)]
    fn step(&mut self, flit: &Flit) -> Reception
        ensures value { result ≡ reception_by self.old.profile (view_of self.old) flit.now }
        ensures follows { Follows self.old self.new (Land flit.now result.outcome) }
    {
        match self.mode {
            Mode::Train => self.land_in_train(flit),
            Mode::Abort => self.land_in_abort(flit),
            Mode::Good => self.land_in_good(flit),
        }
    }

    // In Train the count of flits begins anew.
    fn lose_framing(&mut self)
        ensures { self.new ≡ after_unlock self.old.mode self.old }
    {
        match self.mode {
            Mode::Train => {
                self.see_other();
                self.train = Train::new(self.profile);
            }
            Mode::Abort | Mode::Good => self.abort(),
        }
    }

    /// A flit lands: what the receiver makes of it, the return pointer that is taken, and whether
    /// a check succeeded. Where a packet is accepted, [`Receiver::packet`] returns it.
    #[inline(always)]
    pub fn receive(&mut self, flit: &Flit) -> Reception
        ensures gives { (profile : Profile) (past : List ReceiverEntry) →
            ReceiverStandsFor profile self.old past →
            result ≡ reception_of profile past flit.now }
        ensures stands { (profile : Profile) (past : List ReceiverEntry) →
            ReceiverStandsFor profile self.old past →
            ReceiverStandsFor profile self.new (landing_entry profile past flit.now ∷ past) }
    {
        self.step(flit)
    }

    /// The packet accepted last, poisoned or not; a NULL if none was.
    pub fn packet(&self) -> &Packet
        ensures value { result.now ≡ self.now.packet }
        ensures by_list { (profile : Profile) (past : List ReceiverEntry) →
            ReceiverStandsFor profile self.now past →
            result.now ≡ latest profile past }
    {
        &self.packet
    }

    /// A flit lands, as in [`Receiver::receive`]; the answer has the packet that is accepted.
    pub fn land(&mut self, flit: Flit) -> Landing
        ensures gives { (profile : Profile) (past : List ReceiverEntry) →
            ReceiverStandsFor profile self.old past →
            result ≡ landing_of profile past flit }
        ensures stands { (profile : Profile) (past : List ReceiverEntry) →
            ReceiverStandsFor profile self.old past →
            ReceiverStandsFor profile self.new (landing_entry profile past flit ∷ past) }
    {
        let reception = self.receive(&flit);
        Landing {
            outcome: landed_with(reception.outcome, self.packet()),
            rrp: reception.rrp,
            checked: reception.checked,
        }
    }

    /// The framing was lost. The flits of a packet that isn't whole are dropped, a run or a
    /// training begins anew, and a receiver that was trained waits for Clears.
    pub fn unlock(&mut self)
        ensures { (profile : Profile) (past : List ReceiverEntry) →
            ReceiverStandsFor profile self.old past →
            ReceiverStandsFor profile self.new (Unlock ∷ past) }
    {
        self.lose_framing();
    }

    /// What a sender at the same end sees.
    pub fn view(&self) -> View
        ensures { (profile : Profile) (past : List ReceiverEntry) →
            ReceiverStandsFor profile self.now past →
            result ≡ receiver_view profile past }
    {
        View {
            mode: self.mode,
            rrp: self.frp,
        }
    }

    /// The landed flits of a packet that isn't whole yet, the first one first; at most 16.
    pub fn gathered(&self) -> &[Flit]
        ensures { (profile : Profile) (past : List ReceiverEntry) →
            ReceiverStandsFor profile self.now past →
            result.now ≡ pending past }
    {
        self.gathered.as_slice()
    }
}
