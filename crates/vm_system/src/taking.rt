// Messages are taken.
ghost use Rattle.std.specs.Prelude.{◌≡◌, ◌+◌, ◌<◌, ◌≤◌, ℕ, List, None, Some, OnOk, OnErr, true, false, IfOk, length, reverse, slice_get};
ghost use Rattle.vm_model.specs.declared.command.Command.TheVariants as command;
ghost use Rattle.vm_model.specs.declared.message.Channel.{Channel};
ghost use Rattle.vm_model.specs.declared.message.Channel.TheVariants as channels;
ghost use Rattle.vm_model.specs.declared.event.Device.TheVariants as device;
ghost use Rattle.vm_outside.specs.Areas.{Told};
ghost use Rattle.vm_system.specs.Backed.{BackingGoes, BackingsFit};
ghost use Rattle.vm_system.specs.Keeping.{FilesCarry};
ghost use Rattle.vm_model.specs.Named.{named};
ghost use Rattle.vm_system.specs.Making.{Spares, SparesFiles, SparesPaging};
ghost use Rattle.sms_server.specs.Answers.{IsToServer, most_told};
ghost use Rattle.sms_server.specs.Table.{IsSameTable};
ghost use Rattle.vm_hosts.specs.Hosts.{IsReady};
ghost use Rattle.vm_kernel.specs.declared.breadth.Breadth.TheVariants as wide;
ghost use Rattle.vm_model.specs.declared.message.Message.{Message};
ghost use Rattle.vm_outside.specs.Arming.{KeepsArming};
ghost use Rattle.vm_system.specs.Posts.{HasRoom, IsSent};
ghost use Rattle.vm_system.specs.Stands.{FilesAreKept, PagingIsKept, StandsStill};
ghost use Rattle.vm_legal.specs.Homes.{gives_frame};
ghost use Rattle.vm_legal.specs.Outside.{is_file, is_shared, is_wild, kind_of};
ghost use Rattle.vm_hosts.specs.Steps.{Going, Step};
ghost use Rattle.vm_system.specs.Steps.{takes_up};
ghost use Rattle.vm_system.specs.Takings.{Followed, MayTakeFrom, PagerHasAnswered, Took};

use crate::committing::sent;
use crate::state::State;
use vm_base::{ChannelId, HostId, NoMemory, ObjectId, ObjectKind};
use vm_kernel::Breadth;
use vm_model::{Channel, Message};
use vm_outside::{Armed, Backing};

// Whether a message returns a page that isn't kept: its frame is free once its pager has it.
fn gives_frame(message: &Message) -> bool
    ensures { result ≡ gives_frame message.now }
{
    match message {
        Message::Return { keep, .. } => !*keep,
        _ => false,
    }
}

impl State {
    // Takes the first message of a channel, in the step of a command.
    pub fn take<F: Backing, P: Backing>(
        &mut self,
        line: Option<u32>,
        number: ChannelId,
        files: &mut Armed<F>,
        paging: &mut Armed<P>,
    ) -> Result<(), NoMemory>
        ghost given: { Step }
        requires may { (channel : Channel) × MayTakeFrom given line number channel self.old }
        requires backings { (start : List ℕ → Told) × BackingsFit given.header given.outside start (F.area files.old.inner) (P.area paging.old.inner) self.old }
        ensures took { OnOk result (Took given self.new) }
        ensures err { OnErr result (StandsStill given.header given.outside self.old self.new) }
        ensures backings { (start : List ℕ → Told) → BackingsFit given.header given.outside start (F.area files.old.inner) (P.area paging.old.inner) self.old
            → BackingsFit given.header given.outside start (F.area files.new.inner) (P.area paging.new.inner) self.new }
        ensures paging { (channel : Channel) → slice_get self.old.channels.made number.0 ≡ Some channel
            → takes_up given.header device.Paging (command.Take channel) ≡ false → paging.new ≡ paging.old }
        ensures files { (channel : Channel) → slice_get self.old.channels.made number.0 ≡ Some channel
            → takes_up given.header device.Files (command.Take channel) ≡ false → files.new ≡ files.old }
        ensures unmoved { OnErr result (KeepsArming files.old files.new × KeepsArming paging.old paging.new) }
        ensures files_go { BackingGoes device.Files (⟦<Armed<F> as Backing>⟧.later files.old files.new) (⟦<Armed<F> as Backing>⟧.faults files.old)
            (⟦<Armed<F> as Backing>⟧.faults files.new) self.old.history.items self.new.history.items }
        ensures paging_goes { BackingGoes device.Paging (⟦<Armed<P> as Backing>⟧.later paging.old paging.new) (⟦<Armed<P> as Backing>⟧.faults paging.old)
            (⟦<Armed<P> as Backing>⟧.faults paging.new) self.old.history.items self.new.history.items }
    {
        let channel = self.channels.channel(number);
        match channel {
            Channel::Up { host, object } => self.take_up(line, number, host, object, files, paging),
            Channel::Down {
                host,
                object,
                control,
            } => self.take_down(line, number, host, object, control),
        }
    }

    // An answer of a pager is taken: the host does what it says, and goes on.
    fn take_down(
        &mut self,
        line: Option<u32>,
        number: ChannelId,
        host: HostId,
        object: ObjectId,
        control: u32,
    ) -> Result<(), NoMemory>
        ghost given: { Step }
        requires { MayTakeFrom given line number (channels.Down host object control) self.old }
        ensures took { OnOk result (Took given self.new) }
        ensures err { OnErr result (StandsStill given.header given.outside self.old self.new) }
        ensures spares { Spares given.header given.outside self.old self.new }
    {
        let Some(index) = self.ports.head(number) else {
            unreachable!()
        };
        let index = *index;
        let breadth = Breadth::of_word(sent(&self.history, index));
        self.prepare(Some(host), breadth, 2)?;
        let message = sent(&self.history, index);
        self.hosts
            .take(host, object, control, message, &mut self.log)?;
        self.take_first(line, number);
        self.commit_log();
        Ok(())
    }

    // The pager of an object takes a message and answers, and then the hosts go on: of a declared object
    // that is its own, and else the default pager of the host.
    fn take_up<F: Backing, P: Backing>(
        &mut self,
        line: Option<u32>,
        number: ChannelId,
        host: HostId,
        object: ObjectId,
        files: &mut Armed<F>,
        paging: &mut Armed<P>,
    ) -> Result<(), NoMemory>
        ghost given: { Step }
        requires may { MayTakeFrom given line number (channels.Up host object) self.old }
        requires backings { (start : List ℕ → Told) × BackingsFit given.header given.outside start (F.area files.old.inner) (P.area paging.old.inner) self.old }
        ensures took { OnOk result (Took given self.new) }
        ensures err { OnErr result (StandsStill given.header given.outside self.old self.new) }
        ensures backings { (start : List ℕ → Told) → BackingsFit given.header given.outside start (F.area files.old.inner) (P.area paging.old.inner) self.old
            → BackingsFit given.header given.outside start (F.area files.new.inner) (P.area paging.new.inner) self.new }
        ensures paging { takes_up given.header device.Paging (command.Take (channels.Up host object)) ≡ false → paging.new ≡ paging.old }
        ensures files { takes_up given.header device.Files (command.Take (channels.Up host object)) ≡ false → files.new ≡ files.old }
        ensures unmoved { OnErr result (KeepsArming files.old files.new × KeepsArming paging.old paging.new) }
        ensures files_go { BackingGoes device.Files (⟦<Armed<F> as Backing>⟧.later files.old files.new) (⟦<Armed<F> as Backing>⟧.faults files.old)
            (⟦<Armed<F> as Backing>⟧.faults files.new) self.old.history.items self.new.history.items }
        ensures paging_goes { BackingGoes device.Paging (⟦<Armed<P> as Backing>⟧.later paging.old paging.new) (⟦<Armed<P> as Backing>⟧.faults paging.old)
            (⟦<Armed<P> as Backing>⟧.faults paging.new) self.old.history.items self.new.history.items }
    {
        match self.kind(object) {
            ObjectKind::Temp => self.take_paged(line, number, host, object, paging),
            ObjectKind::File => self.take_filed(line, number, host, object, files),
            ObjectKind::Shared => self.take_shared(line, number, host, object),
            ObjectKind::Wild => self.take_wild(line, number, host, object),
        }
    }

    // The kind of an object: temporary, where none with its number is declared.
    pub fn kind(&self, object: ObjectId) -> ObjectKind
        ghost given: { Step }
        requires { self.now.declared.items ≡ reverse given.header.objects.items }
        ensures { result ≡ kind_of given.header object.0 }
    {
        match self.declared.get(object.0 as usize) {
            Some(declared) => declared.kind,
            None => ObjectKind::Temp,
        }
    }

    // The default pager of a host takes a message about a temporary object.
    fn take_paged<P: Backing>(
        &mut self,
        line: Option<u32>,
        number: ChannelId,
        host: HostId,
        object: ObjectId,
        paging: &mut Armed<P>,
    ) -> Result<(), NoMemory>
        ghost given: { Step }
        requires may { MayTakeFrom given line number (channels.Up host object) self.old }
        requires temporary { named given.header ≤ object.0 }
        requires kept { PagingIsKept given.header given.outside (P.area paging.old.inner) self.old }
        ensures took { OnOk result (Took given self.new) }
        ensures err { OnErr result (StandsStill given.header given.outside self.old self.new) }
        ensures kept { PagingIsKept given.header given.outside (P.area paging.new.inner) self.new }
        ensures spares { SparesFiles given.header given.outside self.old self.new }
        ensures unmoved { OnErr result (KeepsArming paging.old paging.new) }
        ensures paging_goes { BackingGoes device.Paging (⟦<Armed<P> as Backing>⟧.later paging.old paging.new) (⟦<Armed<P> as Backing>⟧.faults paging.old)
            (⟦<Armed<P> as Backing>⟧.faults paging.new) self.old.history.items self.new.history.items }
    {
        self.prepare(None, Breadth::Few, 4)?;
        let Some(index) = self.ports.head(number) else {
            unreachable!()
        };
        let message = sent(&self.history, *index);
        let washed = gives_frame(message);
        let mut answers = self.pagers[host.0 as usize].answer(object, message, paging)?;
        let fresh = answers.len() + 1;
        self.take_first(line, number);
        self.commit(&mut answers);
        self.follow(host, fresh, washed);
        Ok(())
    }

    // The pager of a file takes a message.
    fn take_filed<F: Backing>(
        &mut self,
        line: Option<u32>,
        number: ChannelId,
        host: HostId,
        object: ObjectId,
        files: &mut Armed<F>,
    ) -> Result<(), NoMemory>
        ghost given: { Step }
        requires may { MayTakeFrom given line number (channels.Up host object) self.old }
        requires file { is_file given.header object.0 ≡ true }
        requires files { FilesAreKept given.header given.outside (F.area files.old.inner) self.old }
        ensures took { OnOk result (Took given self.new) }
        ensures err { OnErr result (StandsStill given.header given.outside self.old self.new) }
        ensures files_kept { FilesAreKept given.header given.outside (F.area files.new.inner) self.new }
        ensures carried { (start : List ℕ → Told) → FilesCarry given.header start (F.area files.old.inner) self.old.history.items
            → FilesCarry given.header start (F.area files.new.inner) self.new.history.items }
        ensures spares { SparesPaging given.header given.outside self.old self.new }
        ensures unmoved { OnErr result (KeepsArming files.old files.new) }
        ensures files_go { BackingGoes device.Files (⟦<Armed<F> as Backing>⟧.later files.old files.new) (⟦<Armed<F> as Backing>⟧.faults files.old)
            (⟦<Armed<F> as Backing>⟧.faults files.new) self.old.history.items self.new.history.items }
    {
        self.prepare(None, Breadth::Few, 4)?;
        let Some(index) = self.ports.head(number) else {
            unreachable!()
        };
        let message = sent(&self.history, *index);
        let washed = gives_frame(message);
        let mut replies = self.files[object.0 as usize].answer(host, message, files)?;
        let fresh = replies.len() + 1;
        self.take_first(line, number);
        self.commit(&mut replies);
        self.follow(host, fresh, washed);
        Ok(())
    }

    // What is sent to a wild object's pager is taken, and nobody answers.
    fn take_wild(
        &mut self,
        line: Option<u32>,
        number: ChannelId,
        host: HostId,
        object: ObjectId,
    ) -> Result<(), NoMemory>
        ghost given: { Step }
        requires may { MayTakeFrom given line number (channels.Up host object) self.old }
        requires wild { is_wild given.header object.0 ≡ true }
        ensures took { OnOk result (Took given self.new) }
        ensures err { OnErr result (StandsStill given.header given.outside self.old self.new) }
        ensures spares { Spares given.header given.outside self.old self.new }
    {
        self.prepare(None, Breadth::Few, 2)?;
        let Some(index) = self.ports.head(number) else {
            unreachable!()
        };
        let message = sent(&self.history, *index);
        let washed = gives_frame(message);
        self.take_first(line, number);
        self.follow(host, 1, washed);
        Ok(())
    }

    // The server of shared memory takes a message.
    fn take_shared(
        &mut self,
        line: Option<u32>,
        number: ChannelId,
        host: HostId,
        object: ObjectId,
    ) -> Result<(), NoMemory>
        ghost given: { Step }
        requires may { MayTakeFrom given line number (channels.Up host object) self.old }
        requires shared { is_shared given.header object.0 ≡ true }
        ensures took { OnOk result (Took given self.new) }
        ensures err { OnErr result (StandsStill given.header given.outside self.old self.new) }
        ensures spares { Spares given.header given.outside self.old self.new }
    {
        let Some(index) = self.ports.head(number) else {
            unreachable!()
        };
        let index = *index;
        let most = self.expect(index, object)?;
        let Some(more) = most.checked_add(2) else {
            return Err(NoMemory);
        };
        self.prepare(None, Breadth::Few, more)?;
        let message = sent(&self.history, index);
        let washed = gives_frame(message);
        let mut words = self.server.answer(host, object, message)?;
        let fresh = words.len() + 1;
        self.take_first(line, number);
        self.commit(&mut words);
        self.follow(host, fresh, washed);
        Ok(())
    }

    // The most events that the server of shared memory answers to the message that an event sent, for which it takes its memory.
    fn expect(&mut self, index: u32, object: ObjectId) -> Result<u32, NoMemory>
        requires sent { (channel : Channel) × (m : Message) × (IsSent self.old.history.items index channel m × IsToServer m) }
        ensures same { self.new ≡ record self.old { server = self.new.server } }
        ensures table { IsSameTable self.old.server self.new.server }
        ensures most { IfOk result (λ most. (channel : Channel) (m : Message) → IsSent self.old.history.items index channel m
            → most ≡ most_told object.0 m self.new.server) }
    {
        let message = sent(&self.history, index);
        self.server.most(object, message)
    }

    // The hosts go on behind the taking of a message by a pager of one, of which so many events were told.
    fn follow(&mut self, host: HostId, fresh: u32, washed: bool)
        ghost given: { Going }
        requires front { length given.front ≡ fresh }
        requires answered { PagerHasAnswered given host washed self.old }
        requires ready { (most : ℕ) × (IsReady None wide.Few most self.old.hosts self.old.log.room × HasRoom most self.old) }
        ensures followed { Followed given self.new }
        ensures pagers { self.new.pagers ≡ self.old.pagers }
        ensures files { self.new.files ≡ self.old.files }
        ensures spares { Spares given.header given.outside self.old self.new }
    {
        self.hosts.follow(host, washed, &mut self.log);
        self.commit_log();
    }
}
