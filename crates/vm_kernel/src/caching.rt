// Whether a declared object stays on its host when its last entry goes, as its pager says.
ghost use Rattle.std.specs.Prelude.{◌≡◌, ◌++◌, ◌∷◌, ◌+◌, ◌<◌, [], true, IfOk, IsOk, OnOk};
ghost use Rattle.vm_model.specs.declared.event.Event.TheVariants as event;
ghost use Rattle.vm_model.specs.declared.message.Channel.TheVariants.{Down};
ghost use Rattle.vm_legal.specs.Steps.{is_ready_message};
ghost use Rattle.vm_supply.specs.declared.woken.Woken.TheVariants as who;
ghost use Rattle.vm_kernel.specs.Begun.{LegalEvents, Passing};
ghost use Rattle.vm_kernel.specs.Caching.{IsToKeep, Keeping, SaysStay};
ghost use Rattle.vm_kernel.specs.Matches.{Rests, Works, host_id};
ghost use Rattle.vm_kernel.specs.Plays.{Plays, paging};
ghost use Rattle.vm_kernel.specs.Rooms.{HasBuffers, IsRoomy, Spends, leaving};
ghost use Rattle.vm_kernel.specs.Sweeping.{EndsOnly};
ghost use Rattle.vm_kernel.specs.Taking.{is_attributes};

use crate::parts::Parts;
use vm_base::{NoMemory, ObjectId, ObjectKind};
use vm_model::{Channel, Event, Events, Message};
use vm_shadow::Ids;
use vm_supply::{Woken, answer};

impl Parts {
    /// Hears that the pager of an object is ready. The first time that says whether the object stays:
    /// may_cache of memory_object_ready.
    pub fn ready(
        &mut self,
        ids: &Ids,
        object: ObjectId,
        control: u32,
        message: &Message,
        log: &mut Events,
    ) -> Result<Woken, NoMemory>
        ghost given: { Passing }
        requires rests { Rests given.header given.host self.old ids.now given.past }
        requires front { given.front ≡ event.Taken (Down (host_id given.host) object control) message.now ∷ [] }
        requires ready { is_ready_message message.now ≡ true }
        requires nothing { log.old.items ≡ [] }
        ensures says { IfOk result (λ woken. SaysStay given.header given.host given.outside given.command object woken self.old self.new ids.now
            (given.front ++ given.past) log.new.items) }
        ensures spends { OnOk result (Spends (1 + leaving self.old ids.now) 0 0 self.old log.old self.new log.new) }
        ensures succeeds { IsRoomy (1 + leaving self.old ids.now) 0 self.old log.old.room → 0 < self.old.memory.objects.marks → HasBuffers self.old
            → IsOk result }
        ensures buffers { OnOk result (HasBuffers self.old → HasBuffers self.new) }
    {
        let woken = answer(self.host, object, control, message, &mut self.memory, log)?;
        let Message::Ready { cache, .. } = message else {
            unreachable!()
        };
        if let Woken::ReadyOf { .. } = woken {
            self.keep(ids, object, *cache, log)?;
        }
        Ok(woken)
    }

    /// Does what a change of attributes says, if it came for the live control, and tells the pager so where
    /// it wants that, before the object ends. The copy strategy is only told back.
    pub fn change(
        &mut self,
        ids: &Ids,
        object: ObjectId,
        control: u32,
        message: &Message,
        log: &mut Events,
    ) -> Result<(), NoMemory>
        ghost given: { Passing }
        requires rests { Rests given.header given.host self.old ids.now given.past }
        requires front { given.front ≡ event.Taken (Down (host_id given.host) object control) message.now ∷ [] }
        requires attributes { is_attributes message.now ≡ true }
        requires nothing { log.old.items ≡ [] }
        ensures says { OnOk result (SaysStay given.header given.host given.outside given.command object who.Nobody self.old self.new ids.now
            (given.front ++ given.past) log.new.items) }
        ensures spends { OnOk result (Spends (1 + leaving self.old ids.now) 0 0 self.old log.old self.new log.new) }
        ensures succeeds { IsRoomy (1 + leaving self.old ids.now) 0 self.old log.old.room → HasBuffers self.old → IsOk result }
        ensures buffers { OnOk result (HasBuffers self.old → HasBuffers self.new) }
    {
        if !self.is_live(object, control) {
            return Ok(());
        }
        let Message::Attributes {
            cache,
            strategy,
            reply,
        } = message
        else {
            unreachable!()
        };
        if *reply {
            log.push(Event::Sent {
                channel: Channel::Up {
                    host: self.host,
                    object,
                },
                message: Message::Changed {
                    control,
                    cache: *cache,
                    strategy: *strategy,
                },
            })?;
        }
        self.keep(ids, object, *cache, log)
    }

    // A declared object stays when its last entry goes, or no more: a flag that is set is a reference, and
    // an object that nothing refers to behind that ends.
    fn keep(
        &mut self,
        ids: &Ids,
        object: ObjectId,
        cache: bool,
        log: &mut Events,
    ) -> Result<(), NoMemory>
        ghost given: { Keeping }
        requires { IsToKeep given.header given.host self.old ids.now given.who object cache (log.old.items ++ given.past) }
        ensures works { OnOk result (Works given.header given.host self.new ids.now given.who (log.new.items ++ given.past)) }
        ensures goes { OnOk result (LegalEvents given.header given.host given.outside given.command given.past log.old.items log.new.items) }
        ensures waits { OnOk result (self.new.waits ≡ self.old.waits) }
        ensures plays { OnOk result (Plays given.header given.past log.old.items (paging self.old) log.new.items (paging self.new)) }
        ensures only { OnOk result (EndsOnly log.old.items log.new.items) }
        ensures spends { OnOk result (Spends (leaving self.old ids.now) 0 (leaving self.new ids.now) self.old log.old self.new log.new) }
        ensures succeeds { IsRoomy (leaving self.old ids.now) 0 self.old log.old.room → HasBuffers self.old → IsOk result }
        ensures buffers { OnOk result (HasBuffers self.old → HasBuffers self.new) }
    {
        let Some(known) = self.memory.objects.find(object) else {
            unreachable!()
        };
        if known.cache == cache {
            return Ok(());
        }
        if let ObjectKind::Temp = known.kind {
            return Ok(());
        }
        self.memory.objects.set_cache(object, cache);
        if cache {
            self.memory.objects.refer(object);
            return Ok(());
        }
        if self.memory.objects.unrefer(object) > 0 {
            return Ok(());
        }
        let _left = self.end_object(ids, object, log)?;
        Ok(())
    }
}
