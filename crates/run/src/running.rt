// One event, carried out on a cell that runs. Nothing of the cell is stored before the last
// refusal is passed.
#![tactic(auto)]

ghost use Rattle.std.specs.Prelude.{◌≡◌, ◌<◌, ◌≤◌, Some, None, ok_or, MatchResult};
ghost use Rattle.base.specs.declared.Refusal.{Refusal};
ghost use Rattle.cell.specs.CellLimits.{content_at, host_at};
ghost use Rattle.placing.specs.Parts.{Frees};
ghost use Rattle.cell.specs.declared.Event.TheVariants.{Deliver, Lose, Repeat};
ghost use Rattle.run.specs.Running.{Ready, Fresh, Room, Found, Filled, Sends, Carries, Steps};
ghost use Rattle.run.specs.Running.{Does, freed_of};

use base::Refusal;
use cell::{Cell, Event};
use host::{Host, Sent, Step};
use message::Message;
use placing::Placed;
use slots::Slot;

// A cell that runs, which of its slots are free, and where what the last event sent was placed.
// The free ones stand beside the slots: with a walk over slots of 72 bytes, 13 with every slot in
// use took 1.1 of the model, above the mark of 1.0 of perf/events (docs/PERFORMANCE.md).
// What holds of it stands in `requires`: each part of an event asks for another.
#[derive(Clone, Copy)]
pub struct Running {
    pub cell: Cell,
    pub free: [bool; 96],
    pub placed: Placed,
}

impl Running {
    pub fn new(cell: Cell) -> Running
        ensures cell { result.cell ≡ cell }
        ensures free { Frees cell.slots result.free }
    {
        Running {
            cell,
            free: placing::free_of(&cell.slots),
            placed: Placed::nothing(),
        }
    }

    // The host of a number; 5 where there is none.
    fn actor(&self, host: u8) -> Result<&Host, Refusal>
        requires { self.now.cell.settings.n ≤ 9 }
        ensures { MatchResult result
            (λ h. (host < self.now.cell.settings.n) × (h.now ≡ host_at self.now.cell host))
            (λ e. (self.now.cell.settings.n ≤ host) × (e ≡ Refusal.Host)) }
    {
        if self.cell.settings.n <= host {
            return Err(Refusal::Host);
        }
        Ok(&self.cell.hosts[host as usize])
    }

    // The message in a slot; 12 where there is none.
    fn message_in(&self, slot: u8) -> Result<Message, Refusal>
        ensures { result ≡ ok_or (content_at self.now.cell slot) Refusal.Slot }
    {
        self.cell
            .slots
            .get(slot as usize)
            .and_then(|s| s.content)
            .ok_or(Refusal::Slot)
    }

    // Frees a slot, where an event frees one.
    fn free(&mut self, slot: Option<usize>)
        requires { Room self.old slot }
        ensures { self.new ≡ freed_of self.old slot }
    {
        if let Some(i) = slot {
            self.cell.slots[i] = Slot { content: None };
            self.free[i] = true;
        }
    }

    // Fills the slots that were found for what is sent.
    fn fill(&mut self, sent: &Sent)
        requires { Found self.old }
        ensures { Filled self.old sent.now self.new }
    {
        for fill in self.placed.fills() {
            let message = message::addressed_to(sent.message, fill.host);
            self.cell.slots[fill.slot] = Slot {
                content: Some(message),
            };
            self.free[fill.slot] = false;
        }
    }

    // Places what is sent, once the slot that an event frees is freed; 13 without room, and then
    // nothing changes.
    fn send(&mut self, freed: Option<usize>, sent: &Sent) -> Result<(), Refusal>
        requires { Room self.old freed }
        ensures { Sends self.old.cell freed (Some sent.now) result self.new }
    {
        let n = self.cell.settings.n;
        self.placed.place(&self.free, freed, sent.receivers, n)?;
        self.free(freed);
        self.fill(sent);
        Ok(())
    }

    // The step of a host, stored once what it sends is placed.
    fn carry(&mut self, host: u8, freed: Option<usize>, step: &Step) -> Result<(), Refusal>
        requires room { Room self.old freed }
        requires unlooked { self.old.placed.looked ≡ 0 }
        requires there { host < 9 }
        ensures { Carries self.old.cell host freed step.now result self.new }
    {
        match &step.sent {
            Some(sent) => self.send(freed, sent)?,
            None => self.free(freed),
        }
        self.cell.hosts[host as usize] = step.host;
        Ok(())
    }

    // A step of a host of its own; 5 where there is no such host.
    fn step<F: FnOnce(Host) -> Result<Step, Refusal>>(
        &mut self,
        host: u8,
        step: F,
    ) -> Result<(), Refusal>
        requires room { Room self.old None }
        requires unlooked { self.old.placed.looked ≡ 0 }
        requires callable { F.IsAlwaysCallable step }
        ensures { Steps self.old host (F.post step (host_at self.old.cell host)) result self.new }
    {
        // Lent to the match: by `?` the step is copied, and a start that ends in 13 takes 1.2 to
        // 1.3 of the time (perf/events).
        match &step(*self.actor(host)?) {
            Ok(step) => self.carry(host, None, step),
            Err(refusal) => Err(*refusal),
        }
    }

    // A delivery: 12, 13.
    fn deliver(&mut self, slot: u8) -> Result<(), Refusal>
        requires { Fresh self.old }
        ensures { Does self.old.cell (Deliver slot) result self.new }
    {
        let m = self.message_in(slot)?;
        let host = message::target_of(m);
        let step = self.cell.hosts[host as usize].on_delivery(self.cell.settings, m);
        self.carry(host, acts::freed_by(Event::Deliver(slot)), &step)
    }

    // A loss: 12.
    fn lose(&mut self, slot: u8) -> Result<(), Refusal>
        requires { Fresh self.old }
        ensures { Does self.old.cell (Lose slot) result self.new }
    {
        self.message_in(slot)?;
        self.free(acts::freed_by(Event::Lose(slot)));
        Ok(())
    }

    // A repeat: 12, 13.
    fn repeat(&mut self, slot: u8) -> Result<(), Refusal>
        requires { Fresh self.old }
        ensures { Does self.old.cell (Repeat slot) result self.new }
    {
        let message = self.message_in(slot)?;
        let receivers = quorum::single_of(message::target_of(message));
        self.send(None, &Sent { message, receivers })
    }

    // Any event of a cell within its limits.
    // An arm an event: each is a step of its own, and those of one host share `step`.
    pub fn event(&mut self, e: Event) -> Result<(), Refusal>
        requires { Ready self.old }
        ensures { Does self.old.cell e result self.new }
    {
        let s = self.cell.settings;
        self.placed.looked = 0;
        match e {
            Event::AdvanceAll(d) => acts::advance_all(&mut self.cell, d),
            Event::AdvanceOne(host, d) => acts::advance_one(&mut self.cell, host, d),
            Event::Start(host, duration) => self.step(host, |h| h.start(s, duration)),
            Event::Restart(host) => self.step(host, |h| h.restart(s)),
            Event::Release(host) => self.step(host, |h| h.release(s)),
            Event::Deliver(slot) => self.deliver(slot),
            Event::Lose(slot) => self.lose(slot),
            Event::Repeat(slot) => self.repeat(slot),
        }
    }
}
