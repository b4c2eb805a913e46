// The reader of a schedule.
ghost use Rattle.std.specs.Prelude.{◌≡◌, ◌≤◌, ◌<◌, ◌+◌, ◌-◌, ◌^◌, min, ◌⊎◌, ℕ, List, [], ◌∷◌, ◌++◌, length, take, slice_index, true, false, IfOk, IfErr, OnErr, MatchResult, MatchOption, Option, Some, None, Ok, Err};
ghost use Rattle.edge_text.specs.Lines.{lines_of};
ghost use Rattle.flight_core.specs.Schedule.{schedule};
ghost use Rattle.flight_core.specs.ScheduleLine.{said_by};
ghost use Rattle.flight_core.specs.ScheduleRead.{HasRead, IsFaultOf, IsWithin, StopsIn};
ghost use Rattle.flight_core.specs.declared.said.Said.TheVariants.{Does};
ghost use Rattle.flight_core.specs.declared.schedule.ScheduleFault.{ScheduleFault};

use crate::event::Event;
use crate::said::{Said, said_in_line};
use arrayvec::ArrayVec;
use std::alloc::Global;
use std::marker::Model;

/// Why a text isn't a schedule. `Bad`: a line that is too long or says nothing that a line may say. `Ended`: there is no
/// line `edges`, by the number of lines. `TooManyEvents`: there is an event behind 100000 others. `NoMemory`: memory ran
/// out.
#[derive(Clone, Copy, Debug, PartialEq, Eq, Drop)]
pub enum ScheduleFault {
    Bad { line: u64 },
    Ended { line: u64 },
    TooManyEvents { limit: u64 },
    NoMemory,
}

/// Reads the text of a schedule in any pieces, up to its line `edges`.
///
/// A line is `feed t i j`, `skip t i j`, `final t j` or `edges`, with spaces or tabs between; it may be blank, or a
/// comment that begins with `#` or `%`, and a carriage return may stand before its line feed. It has 128 bytes at most,
/// with that carriage return, and there are 100000 events at most.
#[derive(Drop)]
pub struct ScheduleReader {
    lines: u64,
    events: Vec<Event>,
    line: ArrayVec<u8, 128>,
    complete: bool,
    fault: Option<ScheduleFault>,
}

impl Model for ScheduleReader {
    ghost use Rattle.std.specs.Prelude.{◌≤◌, length};
    ghost use Rattle.flight_core.specs.ScheduleRead.{ScheduleState};

    ghost Value = { ScheduleState };

    ghost view = { λ r. record { lines = r.lines; events = r.events.items; line = r.line.items; complete = r.complete; fault = r.fault } };

    ghost invariant = { λ r. (length r.line.items ≤ 128) × (length r.events.items ≤ 100000) };
}

// How many bytes of a text stand before its first line feed, or all.
fn line_length(text: &[u8]) -> usize
    ensures within { result ≤ length text.now }
    ensures unended { lines_of (take result text.now) ≡ [] }
    ensures stops { (result ≡ length text.now) ⊎ (slice_index text.now result ≡ 10) }
{
    let mut used = 0;
    while used < text.len() && text[used] != b'\n' {
        used += 1;
    }
    used
}

impl ScheduleReader {
    /// A reader that has read nothing. Its events take their memory of this allocator.
    pub fn new(alloc: Global) -> ScheduleReader
        ensures read { HasRead [] result }
        ensures begun { result.complete ≡ false }
        ensures events { result.events ≡ [] }
    {
        ScheduleReader {
            lines: 0,
            events: Vec::new(alloc),
            line: ArrayVec::new(),
            complete: false,
            fault: None,
        }
    }

    // Ends the line that is open, which has this number and says this event.
    fn end_event(&mut self, number: u64, event: Event) -> Result<(), ScheduleFault>
        requires going { self.old.complete ≡ false }
        requires number { number ≡ min (self.old.lines + 1) (2 ^ 64 - 1) }
        requires said { said_by self.old.line ≡ Does event }
        ensures reads { (seen : List ℕ) → HasRead seen self.old
            → MatchResult result (λ _. HasRead (seen ++ 10 ∷ []) self.new) (λ fault. IsFaultOf (seen ++ 10 ∷ []) fault) }
        ensures stopped { (seen : List ℕ) → HasRead seen self.old → IfErr result (StopsIn seen (seen ++ 10 ∷ []) self.new.events) }
        ensures kept { MatchResult result (λ _. self.new.fault ≡ self.old.fault) (λ fault. self.new.fault ≡ Some fault) }
        ensures incomplete { OnErr result (self.new.complete ≡ false) }
    {
        if self.events.len() >= 100000 {
            let fault = ScheduleFault::TooManyEvents { limit: 100000 };
            self.fault = Some(fault);
            return Err(fault);
        }
        match self.events.push(event) {
            Ok(()) => {
                self.lines = number;
                self.line.clear();
                Ok(())
            }
            Err(_) => {
                self.fault = Some(ScheduleFault::NoMemory);
                Err(ScheduleFault::NoMemory)
            }
        }
    }

    // Ends the line that is open.
    fn end_line(&mut self) -> Result<(), ScheduleFault>
        requires { self.old.complete ≡ false }
        ensures reads { (seen : List ℕ) → HasRead seen self.old
            → MatchResult result (λ _. HasRead (seen ++ 10 ∷ []) self.new) (λ fault. IsFaultOf (seen ++ 10 ∷ []) fault) }
        ensures stopped { (seen : List ℕ) → HasRead seen self.old → IfErr result (StopsIn seen (seen ++ 10 ∷ []) self.new.events) }
        ensures kept { MatchResult result (λ _. self.new.fault ≡ self.old.fault) (λ fault. self.new.fault ≡ Some fault) }
        ensures incomplete { OnErr result (self.new.complete ≡ false) }
    {
        let number = self.lines.saturating_add(1);
        match said_in_line(&self.line) {
            Said::Nothing => {
                self.lines = number;
                self.line.clear();
                Ok(())
            }
            Said::Does(event) => self.end_event(number, event),
            Said::Edges => {
                self.complete = true;
                Ok(())
            }
            Said::Unclear => {
                let fault = ScheduleFault::Bad { line: number };
                self.fault = Some(fault);
                Err(fault)
            }
        }
    }

    // Takes bytes of the line that is open, which don't end it.
    fn extend_line(&mut self, bytes: &[u8]) -> Result<(), ScheduleFault>
        requires going { self.old.complete ≡ false }
        requires unended { lines_of bytes.now ≡ [] }
        ensures reads { (seen : List ℕ) → HasRead seen self.old
            → MatchResult result (λ _. HasRead (seen ++ bytes.now) self.new) (λ fault. IsFaultOf (seen ++ bytes.now) fault) }
        ensures stopped { (seen : List ℕ) → HasRead seen self.old → IfErr result (StopsIn seen (seen ++ bytes.now) self.new.events) }
        ensures kept { MatchResult result (λ _. self.new.fault ≡ self.old.fault) (λ fault. self.new.fault ≡ Some fault) }
        ensures going { self.new.complete ≡ false }
    {
        match self.line.try_extend_from_slice(bytes) {
            Ok(()) => Ok(()),
            Err(_) => {
                let line = self.lines.saturating_add(1);
                self.fault = Some(ScheduleFault::Bad { line });
                Err(ScheduleFault::Bad { line })
            }
        }
    }

    // Takes the bytes of a text up to and with the end of its first line, or all.
    fn take_line(&mut self, text: &[u8]) -> Result<usize, ScheduleFault>
        requires going { self.old.complete ≡ false }
        requires some { 0 < length text.now }
        ensures reads { (seen : List ℕ) → HasRead seen self.old
            → MatchResult result (λ used. HasRead (seen ++ take used text.now) self.new) (λ fault. IsFaultOf (seen ++ text.now) fault) }
        ensures within { IfOk result (λ used. (0 < used) × (used ≤ length text.now)) }
        ensures stopped { (seen : List ℕ) → HasRead seen self.old → IfErr result (StopsIn seen (seen ++ text.now) self.new.events) }
        ensures kept { MatchResult result (λ _. self.new.fault ≡ self.old.fault) (λ fault. self.new.fault ≡ Some fault) }
        ensures incomplete { OnErr result (self.new.complete ≡ false) }
    {
        let len = line_length(text);
        match self.extend_line(&text[..len]) {
            Ok(()) => {
                if len == text.len() {
                    return Ok(len);
                }
                match self.end_line() {
                    Ok(()) => Ok(len + 1),
                    Err(fault) => Err(fault),
                }
            }
            Err(fault) => Err(fault),
        }
    }

    /// Takes bytes of a piece, up to and with its line `edges` or all, and answers how many. Behind that line it takes
    /// none.
    ///
    /// Its faults are the text's, whatever comes behind the piece: `Bad` when the end of such a line was read, or its
    /// byte 129, and `TooManyEvents` when the end of that event's line was read. `NoMemory` comes only where memory ran
    /// out for the event of a line that ends in the piece, and that line and those before it have no fault. After a fault
    /// the events are those of the lines before its own, and each later call answers the fault.
    pub fn feed(&mut self, piece: &[u8]) -> Result<usize, ScheduleFault>
        ensures reads { (seen : List ℕ) → HasRead seen self.old
            → MatchResult result (λ used. HasRead (seen ++ take used piece.now) self.new) (λ fault. IsFaultOf (seen ++ piece.now) fault) }
        ensures stopped { (seen : List ℕ) → HasRead seen self.old → IfErr result (StopsIn seen (seen ++ piece.now) self.new.events) }
        ensures within { IfOk result (λ used. used ≤ length piece.now) }
        ensures stops { IfOk result (λ used. (used ≡ length piece.now) ⊎ (self.new.complete ≡ true)) }
        ensures over { self.old.fault ≡ None → self.old.complete ≡ true → (result ≡ Ok 0) × (self.new ≡ self.old) }
        ensures again { (fault : ScheduleFault) → self.old.fault ≡ Some fault → (result ≡ Err fault) × (self.new ≡ self.old) }
        ensures kept { MatchResult result (λ _. self.new.fault ≡ None) (λ fault. self.new.fault ≡ Some fault) }
        ensures incomplete { OnErr result (self.new.complete ≡ self.old.complete) }
    {
        if let Some(fault) = self.fault {
            return Err(fault);
        }
        if self.complete {
            return Ok(0);
        }
        let mut used = 0;
        while used < piece.len() && !self.complete {
            match self.take_line(&piece[used..]) {
                Ok(taken) => used += taken,
                Err(fault) => return Err(fault),
            }
        }
        Ok(used)
    }

    // The fault of a text that ends here, where its line `edges` hasn't come.
    fn fault_at_end(&self) -> Option<ScheduleFault>
        ensures { (seen : List ℕ) → IsWithin seen self.now
            → MatchOption result (schedule seen ≡ Ok (record { events = self.now.events; edges = [] })) (λ fault. schedule seen ≡ Err fault) }
    {
        if self.line.len() == 0 {
            return Some(ScheduleFault::Ended { line: self.lines });
        }
        let line = self.lines.saturating_add(1);
        match said_in_line(&self.line) {
            Said::Nothing => Some(ScheduleFault::Ended { line }),
            Said::Does(_) => {
                if self.events.len() >= 100000 {
                    Some(ScheduleFault::TooManyEvents { limit: 100000 })
                } else {
                    Some(ScheduleFault::Ended { line })
                }
            }
            Said::Edges => None,
            Said::Unclear => Some(ScheduleFault::Bad { line }),
        }
    }

    /// Ends the text. Its last line may lack a line feed.
    ///
    /// Its faults are those of the whole text: that of its last line, `Ended` where the line `edges` hasn't come, or the
    /// one that an earlier call answered. After a fault each later call answers it.
    pub fn finish(&mut self) -> Result<(), ScheduleFault>
        ensures reads { (seen : List ℕ) → HasRead seen self.old
            → MatchResult result (λ _. schedule seen ≡ Ok (record { events = self.new.events; edges = [] })) (λ fault. schedule seen ≡ Err fault) }
        ensures complete { IfOk result (λ _. self.new.complete ≡ true) }
        ensures events { self.new.events ≡ self.old.events }
        ensures over { self.old.fault ≡ None → self.old.complete ≡ true → (result ≡ Ok tt) × (self.new ≡ self.old) }
        ensures again { (fault : ScheduleFault) → self.old.fault ≡ Some fault → (result ≡ Err fault) × (self.new ≡ self.old) }
        ensures kept { MatchResult result (λ _. self.new.fault ≡ None) (λ fault. self.new.fault ≡ Some fault) }
        ensures incomplete { OnErr result (self.new.complete ≡ self.old.complete) }
    {
        if let Some(fault) = self.fault {
            return Err(fault);
        }
        if self.complete {
            return Ok(());
        }
        match self.fault_at_end() {
            Some(fault) => {
                self.fault = Some(fault);
                Err(fault)
            }
            None => {
                self.complete = true;
                Ok(())
            }
        }
    }

    /// Whether the line `edges` has come.
    pub fn is_complete(&self) -> bool
        ensures { result ≡ self.now.complete }
    {
        self.complete
    }

    /// The events so far.
    pub fn events(&self) -> &[Event]
        ensures items { result.now ≡ self.now.events }
        ensures few { length self.now.events ≤ 100000 }
    {
        &self.events
    }
}
