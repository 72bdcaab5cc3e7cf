//! Frames taken one by one, and the pairs that they are credited to.

ghost use Rattle.std.specs.Prelude.{◌≡◌};
ghost use Rattle.uds_find.specs.Credit as Spec;

use crate::functional::{keep_functional, take_back};
use crate::lines::{first_candidates, lines_of};
use crate::mention::{Mention, mention_of};
use crate::pair::{CreditLine, IdPair, UnitService};
use crate::tables::{count_request, credit_once, last_answered};
use can_log::{Frame, Id};
use std::alloc::{AllocError, Global};
use std::collections::{BTreeMap, BTreeSet};
use std::marker::Model;

/// What is kept of the frames of a log.
#[derive(Drop)]
pub struct Finder {
    /// Of each service who asked for it last.
    askers: [Option<Id>; 256],
    /// How often each service was asked for.
    askings: [u64; 256],
    /// Of a unit and a service, which asking for the service it answered last, of those whose answer was credited. 0 is
    /// none.
    answered: BTreeMap<UnitService, u64>,
    /// How many answers of each pair were credited.
    credits: BTreeMap<IdPair, u64>,
    /// How many requests each identifier sent.
    requests: BTreeMap<Id, u64>,
    /// The functional identifiers.
    functional: BTreeSet<Id>,
}

impl Model for Finder {
    ghost use Rattle.uds_find.specs.Finding.{FinderValue};

    ghost Value = { FinderValue };

    ghost view = { λ f. record {
      askers = f.askers;
      askings = f.askings;
      answered = f.answered.entries;
      credits = f.credits.entries;
      requests = f.requests.entries;
      functional = f.functional.keys;
    } };
}

impl Finder {
    ghost use Rattle.std.specs.Prelude.{◌≡◌, ◌^◌, ◌<◌, ◌⊎◌, [], ◌∷◌, ◌++◌, List, length, OnOk, OnErr, IfOk, Some};
    ghost use Rattle.can_log.specs.Frame.{FrameValue};
    ghost use Rattle.uds_find.specs.Asking.{IsFirstAsking, NeedsMemory, request_count};
    ghost use Rattle.uds_find.specs.Credit.{HasCredit, IsFirstAnswer, IsFirstCredit};
    ghost use Rattle.uds_find.specs.Finding.{AreCreditLines, HasCounted, StandsAfter};
    ghost use Rattle.uds_find.specs.proving.Steps.{IsAskedMore, IsCreditedTo, IsNewIn, credited_by};
    ghost use Rattle.uds_find.specs.declared.pair.IdPair.{IdPair};

    /// Before the first frame.
    pub fn new(alloc: Global) -> Finder
        ensures { StandsAfter [] result }
    {
        Finder {
            askers: [None; 256],
            askings: [0; 256],
            answered: BTreeMap::new(alloc),
            credits: BTreeMap::new(alloc),
            requests: BTreeMap::new(alloc),
            functional: BTreeSet::new(alloc),
        }
    }

    /// Takes one more frame. Where memory is refused, nothing has changed.
    pub fn take(&mut self, frame: &Frame) -> Result<(), AllocError>
        ensures ok { OnOk result ((frames : List FrameValue) → length frames < 2 ^ 62
            → StandsAfter frames self.old → StandsAfter (frames ++ frame.now ∷ []) self.new) }
        ensures err { OnErr result (self.new ≡ self.old) }
        ensures needs { OnErr result ((frames : List FrameValue)
            → StandsAfter frames self.old → NeedsMemory frames frame.now) }
    {
        let is_new = keep_functional(&mut self.functional, frame)?;
        if let Err(refused) = self.count(frame) {
            take_back(&mut self.functional, frame.id(), is_new);
            return Err(refused);
        }
        Ok(())
    }

    /// Counts what one more frame says.
    fn count(&mut self, frame: &Frame) -> Result<(), AllocError>
        ensures ok { OnOk result ((frames : List FrameValue) → length frames < 2 ^ 62
            → HasCounted frames self.old → HasCounted (frames ++ frame.now ∷ []) self.new) }
        ensures err { OnErr result (self.new ≡ self.old) }
        ensures needs { OnErr result ((frames : List FrameValue) → HasCounted frames self.old
            → IsFirstAsking frames frame.now ⊎ IsFirstCredit frames frame.now ⊎ IsFirstAnswer frames frame.now) }
        ensures functional { self.new.functional ≡ self.old.functional }
    {
        match mention_of(frame) {
            None => Ok(()),
            Some(Mention::Asks(service)) => self.ask(service, frame.id()),
            Some(Mention::Answers(service)) => self.credit(service, frame.id()),
        }
    }

    /// The credit lines of the units, in their order.
    pub fn finish(self, alloc: Global) -> Result<Vec<CreditLine>, AllocError>
        ensures lines { IfOk result (λ lines. (frames : List FrameValue)
            → StandsAfter frames self → AreCreditLines frames lines.items) }
        ensures needs { OnErr result ((frames : List FrameValue) → StandsAfter frames self → HasCredit frames) }
    {
        let Finder {
            credits,
            requests,
            functional,
            ..
        } = self;
        let candidates = first_candidates(alloc, &credits, &functional)?;
        let mut lines = lines_of(alloc, candidates, &credits, &requests, &functional)?;
        lines.sort_unstable();
        Ok(lines)
    }

    /// This identifier asks for the service.
    fn ask(&mut self, service: u8, asker: Id) -> Result<(), AllocError>
        ensures ok { OnOk result (IsAskedMore service asker self.old self.new) }
        ensures err { OnErr result (self.new ≡ self.old) }
        ensures needs { OnErr result ((frames : List FrameValue)
            → HasCounted frames self.old → request_count frames asker ≡ 0) }
        ensures functional { self.new.functional ≡ self.old.functional }
    {
        count_request(&mut self.requests, asker)?;
        let place = service as usize;
        self.askers[place] = Some(asker);
        self.askings[place] = self.askings[place].saturating_add(1);
        Ok(())
    }

    /// Credits an answer of the service by this identifier to who asked last.
    fn credit(&mut self, service: u8, unit: Id) -> Result<(), AllocError>
        ensures ok { OnOk result (IsCreditedTo service unit (credited_by self.old service unit) self.old self.new) }
        ensures err { OnErr result (self.new ≡ self.old) }
        ensures needs { OnErr result ((pair : IdPair) × (credited_by self.old service unit ≡ Some pair)
            × IsNewIn self.old.answered self.old.credits (record { unit = unit; service = service }) pair) }
        ensures functional { self.new.functional ≡ self.old.functional }
    {
        let asking = self.askings[service as usize];
        let answer = UnitService { unit, service };
        let is_answered = last_answered(&self.answered, answer) == asking;
        if let Some(pair) = credited_to(self.askers[service as usize], unit, is_answered) {
            credit_once(&mut self.answered, &mut self.credits, answer, pair, asking)?;
        }
        Ok(())
    }
}

/// The pair of who asked last and of who answers, where this answer is credited.
fn credited_to(asker: Option<Id>, unit: Id, is_answered: bool) -> Option<IdPair>
    ensures { result ≡ Spec.credited_to asker unit is_answered }
{
    let tester = asker?;
    if tester == unit || is_answered {
        None
    } else {
        Some(IdPair { tester, unit })
    }
}
