//! The master of a pair: it takes its steps, and sends what its replies say.
ghost use Rattle.std.specs.Prelude.{◌≡◌, ◌+◌, ◌<◌, ◌≤◌, ◌^◌, ◌++◌, IfOk, OnOk, OnErr};
ghost use Rattle.lvs_model.specs.Pairs.{delivered};
ghost use Rattle.lvs_pair.specs.Acting.{handed, coming, HasEnded, IsOutboxOf, IsReady, Stops, Takes};
ghost use Rattle.lvs_pair.specs.Pairing.{act_of, messages_of_act, counts_after, IsStartOf, IsStepInRange};

use crate::line::Relay;
use crate::outbox::Outbox;
use lvs_core::Core;
use lvs_types::{MasterAct, MasterStep, NoMemory, PairEnd, Reply};
use std::alloc::Global;
use std::sync::Wait;

/// A master, what it did, and what it sends.
#[derive(Drop)]
pub(crate) struct Master {
    pub core: Core,
    pub acts: Vec<MasterAct>,
    pub outbox: Outbox,
}

/// What a director does at a step.
fn act(alloc: Global, core: &mut Core, step: &MasterStep) -> Result<MasterAct, NoMemory>
    requires in_range { IsStepInRange step.now }
    requires young { core.old.steps < 2 ^ 62 }
    ensures ok { IfOk result (λ act. (act, core.new.state) ≡ act_of core.old.state step.now) }
    ensures steps { core.new.steps ≤ core.old.steps + 1 }
    ensures err { OnErr result (core.new ≡ core.old) }
{
    match step {
        MasterStep::Do(item) => Ok(MasterAct::Replied(core.step(alloc, item)?)),
        MasterStep::Look => Ok(MasterAct::Looked(core.snapshot(alloc)?)),
    }
}

/// Sends the messages of an act.
fn send_of<R: Wait>(
    rt: &R,
    alloc: Global,
    relay: &Relay,
    outbox: &mut Outbox,
    act: &MasterAct,
) -> Result<(), NoMemory>
    requires of { IsOutboxOf relay.now outbox.old }
    ensures of { OnOk result (IsOutboxOf relay.now outbox.new) }
    ensures relay { outbox.new.sender.relay ≡ outbox.old.sender.relay }
    ensures counts { outbox.new.counts ≡ outbox.old.counts }
    ensures handed { OnOk result (handed outbox.new ≡ handed outbox.old ++ delivered (messages_of_act act.now) (coming outbox.old)) }
    ensures coming { OnOk result (coming outbox.new ≡ counts_after (messages_of_act act.now) (coming outbox.old)) }
    ensures err { OnErr result (IsStartOf (handed outbox.new) (handed outbox.old ++ delivered (messages_of_act act.now) (coming outbox.old))) }
{
    match act {
        MasterAct::Replied(Reply::Sent(messages)) => {
            outbox.send_all(rt, alloc, relay, messages.as_slice())
        }
        _ => Ok(()),
    }
}

impl Master {
    /// Takes a step, after steps that it has taken.
    fn take_step<R: Wait>(
        &mut self,
        rt: &R,
        alloc: Global,
        relay: &Relay,
        step: &MasterStep,
    ) -> Result<(), NoMemory>
        requires of { IsOutboxOf relay.now self.old.outbox }
        requires in_range { IsStepInRange step.now }
        requires young { self.old.core.steps < 2 ^ 62 }
        ensures of { OnOk result (IsOutboxOf relay.now self.new.outbox) }
        ensures relay { self.new.outbox.sender.relay ≡ self.old.outbox.sender.relay }
        ensures counts { self.new.outbox.counts ≡ self.old.outbox.counts }
        ensures steps { self.new.core.steps ≤ self.old.core.steps + 1 }
        ensures acted { OnOk result (Takes self.old self.new step.now) }
        ensures stopped { OnErr result (Stops self.old self.new step.now) }
    {
        self.acts.reserve(1)?;
        let act = act(alloc, &mut self.core, step)?;
        let sent = send_of(rt, alloc, relay, &mut self.outbox, &act);
        self.acts.push_reserved(act);
        sent
    }

    /// Takes all steps, or the first ones for want of memory.
    pub(crate) fn take_steps<R: Wait>(
        mut self,
        rt: &R,
        alloc: Global,
        relay: &Relay,
        steps: &[MasterStep],
    ) -> (Master, PairEnd)
        requires ready { IsReady relay.now steps.now self }
        ensures led { HasEnded self.core.state (coming self.outbox) steps.now relay.now result.0 result.1 }
        ensures counts { result.0.outbox.counts ≡ self.outbox.counts }
    {
        for step in steps {
            if self.take_step(rt, alloc, relay, step).is_err() {
                return (self, PairEnd::NoMemory);
            }
        }
        (self, PairEnd::Finished)
    }
}
