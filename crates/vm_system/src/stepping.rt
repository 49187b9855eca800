// One command's step.
ghost use Rattle.std.specs.Prelude.{◌≡◌, ◌∷◌, ℕ, List, false, true, None, Some, OnErr, OnOk};
ghost use Rattle.vm_model.specs.Ranges.{InRange};
ghost use Rattle.vm_model.specs.declared.event.Device.TheVariants as device;
ghost use Rattle.vm_outside.specs.Areas.{Told};
ghost use Rattle.vm_legal.specs.Refusal.{refusal};
ghost use Rattle.vm_model.specs.declared.message.Channel.{Channel};
ghost use Rattle.vm_model.specs.declared.command.Command.TheVariants as command;
ghost use Rattle.vm_model.specs.declared.event.Event.TheVariants as event;
ghost use Rattle.vm_hosts.specs.Steps.{Step};
ghost use Rattle.vm_system.specs.Backed.{BackingGoes, BackingsFit};
ghost use Rattle.vm_system.specs.Making.{Makes};
ghost use Rattle.vm_outside.specs.Arming.{KeepsArming};
ghost use Rattle.vm_system.specs.Stands.{StandsStill, SystemStands};
ghost use Rattle.vm_system.specs.Steps.{GrowsWithinLimit, LeavesBacking, Setting, arms, takes_any, takes_up, took_up};

use crate::state::State;
use vm_base::NoMemory;
use vm_model::{Channel, Command};
use vm_outside::{Armed, Backing};

impl State {
    /// Makes one command's step; of a settle that is its line alone.
    pub fn step<F: Backing, P: Backing>(
        &mut self,
        line: u32,
        command: &Command,
        files: &mut Armed<F>,
        paging: &mut Armed<P>,
    ) -> Result<(), NoMemory>
        ghost given: { Setting }
        requires stands { SystemStands given.header given.outside self.old }
        requires backings { (start : List ℕ → Told) × BackingsFit given.header given.outside start (F.area files.old.inner) (P.area paging.old.inner) self.old }
        requires range { InRange given.header command.now }
        ensures made { OnOk result (Makes given.header given.outside (record { line = line; command = command.now }) self.old self.new) }
        ensures grew { GrowsWithinLimit self.old.history.items self.new.history.items }
        ensures err { OnErr result (StandsStill given.header given.outside self.old self.new) }
        ensures unmoved { OnErr result (KeepsArming files.old files.new × KeepsArming paging.old paging.new) }
        ensures backings { (start : List ℕ → Told) → BackingsFit given.header given.outside start (F.area files.old.inner) (P.area paging.old.inner) self.old
            → BackingsFit given.header given.outside start (F.area files.new.inner) (P.area paging.new.inner) self.new }
        ensures alone { OnOk result ((count : ℕ) → command.now ≡ Command.Settle count → self.new.history.items ≡ event.Line line ∷ self.old.history.items) }
        ensures files { OnOk result (LeavesBacking given.header device.Files command.now self.new.history.items files.old files.new) }
        ensures paging { OnOk result (LeavesBacking given.header device.Paging command.now self.new.history.items paging.old paging.new) }
        ensures calm { OnErr result (takes_any command.now ≡ false → (self.new.history.items ≡ self.old.history.items) × (files.new ≡ files.old)
            × (paging.new ≡ paging.old)) }
        ensures files_go { BackingGoes device.Files (arms device.Files command.now ≡ None → ⟦<Armed<F> as Backing>⟧.later files.old files.new)
            (⟦<Armed<F> as Backing>⟧.faults files.old) (⟦<Armed<F> as Backing>⟧.faults files.new) self.old.history.items self.new.history.items }
        ensures paging_goes { BackingGoes device.Paging (arms device.Paging command.now ≡ None → ⟦<Armed<P> as Backing>⟧.later paging.old paging.new)
            (⟦<Armed<P> as Backing>⟧.faults paging.old) (⟦<Armed<P> as Backing>⟧.faults paging.new) self.old.history.items self.new.history.items }
    {
        let host = self.acting(command);
        if let Some(code) = self.refusal(host, command) {
            return self.refuse(line, command, code);
        }
        match command {
            Command::Take { channel } => self.take_from(line, *channel, files, paging),
            Command::Settle { count } => self.settle(line, *count),
            Command::FailFiles { count } => {
                self.pass(line, command)?;
                files.arm(u64::from(*count));
                Ok(())
            }
            Command::FailPaging { count } => {
                self.pass(line, command)?;
                paging.arm(u64::from(*count));
                Ok(())
            }
            Command::Clean { .. } => self.pass(line, command),
            Command::Cache { .. } => self.pass(line, command),
            Command::Say { .. } => self.pass(line, command),
            _ => self.begin(line, host, command),
        }
    }

    // The first message of a channel that isn't empty is taken, for the command of a line.
    fn take_from<F: Backing, P: Backing>(
        &mut self,
        line: u32,
        channel: Channel,
        files: &mut Armed<F>,
        paging: &mut Armed<P>,
    ) -> Result<(), NoMemory>
        ghost given: { Step }
        requires given { given ≡ record {
          header = given.header;
          outside = given.outside;
          command = command.Take channel;
          past = event.Line line ∷ self.old.history.items;
        } }
        requires stands { SystemStands given.header given.outside self.old }
        requires backings { (start : List ℕ → Told) × BackingsFit given.header given.outside start (F.area files.old.inner) (P.area paging.old.inner) self.old }
        requires accepted { refusal given.header self.old.history.items (command.Take channel) ≡ None }
        ensures made { OnOk result (Makes given.header given.outside (record { line = line; command = command.Take channel }) self.old self.new) }
        ensures grew { GrowsWithinLimit self.old.history.items self.new.history.items }
        ensures err { OnErr result (StandsStill given.header given.outside self.old self.new) }
        ensures unmoved { OnErr result (KeepsArming files.old files.new × KeepsArming paging.old paging.new) }
        ensures backings { (start : List ℕ → Told) → BackingsFit given.header given.outside start (F.area files.old.inner) (P.area paging.old.inner) self.old
            → BackingsFit given.header given.outside start (F.area files.new.inner) (P.area paging.new.inner) self.new }
        ensures files { takes_up given.header device.Files (command.Take channel) ≡ false → files.new ≡ files.old }
        ensures paging { takes_up given.header device.Paging (command.Take channel) ≡ false → paging.new ≡ paging.old }
        ensures files_unasked { OnOk result (took_up given.header device.Files self.new.history.items ≡ false → files.new ≡ files.old) }
        ensures unasked { OnOk result (took_up given.header device.Paging self.new.history.items ≡ false → paging.new ≡ paging.old) }
        ensures calm { OnErr result (takes_any (command.Take channel) ≡ false → (self.new.history.items ≡ self.old.history.items) × (files.new ≡ files.old)
            × (paging.new ≡ paging.old)) }
        ensures files_go { BackingGoes device.Files (⟦<Armed<F> as Backing>⟧.later files.old files.new) (⟦<Armed<F> as Backing>⟧.faults files.old)
            (⟦<Armed<F> as Backing>⟧.faults files.new) self.old.history.items self.new.history.items }
        ensures paging_goes { BackingGoes device.Paging (⟦<Armed<P> as Backing>⟧.later paging.old paging.new) (⟦<Armed<P> as Backing>⟧.faults paging.old)
            (⟦<Armed<P> as Backing>⟧.faults paging.new) self.old.history.items self.new.history.items }
    {
        let Some(number) = self.channels.number(channel) else {
            unreachable!()
        };
        self.take(Some(line), number, files, paging)
    }
}
