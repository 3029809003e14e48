//! A way back from want of memory.
ghost use Rattle.std.specs.Prelude.{◌≡◌, ◌≢◌, IsFalse, IsOk, IsTrue};
ghost use Rattle.stow_model.specs.Login.{IsTenant};
ghost use Rattle.stow_ledger.specs.StowState.State.{IsSound};
ghost use Rattle.stow_core.specs.Legal.{HasLegalKeys};
ghost use Rattle.stow_core.specs.State.{shared_of, Keeps};
ghost use Rattle.stow_core.specs.declared.kind.Kind.TheVariants.{Removal, Growth, Read};
ghost use Rattle.stow_model.specs.Command.{Ping};
ghost use Rattle.stow_core.specs.Prepared.{IsPrepared, serves};
ghost use Rattle.stow_commands.specs.Commands.{command_of};

use crate::Core;
use crate::kind::{Kind, kind_of};
use crate::prepared::Prepared;
use std::alloc::{AllocError, Allocator};
use stow_commands::command::Command;

impl<A: Allocator + Copy> Core<A> {
    /// Whether leaves are to be drained (`HeldBack::is_due`).
    fn is_due(&mut self) -> bool
        ensures { self.new ≡ self.old }
    {
        self.held.is_due()
    }

    /// Gives up the memory that is held back.
    fn give_up(&mut self)
        ensures { self.new ≡ self.old }
    {
        self.held.give_up();
    }

    /// Gets what is missing of the memory that is held back.
    fn fill(&mut self, alloc: A) -> Result<(), AllocError>
        ensures { self.new ≡ self.old }
    {
        if self.held.is_whole() {
            return Ok(());
        }
        self.held.fill(alloc)
    }

    /// Merges one leaf with what is buffered for it. It answers whether there was one, and memory.
    fn flush(&mut self, alloc: A) -> bool
        ensures { Keeps self.old self.new }
    {
        let Ok(Some(job)) = self.plan_emptiest(alloc) else {
            return false;
        };
        let Ok(merge) = job.merge(alloc) else {
            return false;
        };
        self.install(alloc, merge).is_ok()
    }

    /// Merges one leaf after another, until nothing is buffered, or memory is refused.
    fn flush_all(&mut self, alloc: A)
        ensures { Keeps self.old self.new }
    {
        let _known = self.is_tenant(0);
        for _ in 0..u64::MAX {
            if !self.flush(alloc) {
                return;
            }
        }
    }

    /// Merges all leaves with what is buffered for them, with the memory that is held back, where much came or went since it was
    /// done last. It answers whether it did.
    fn drain(&mut self, alloc: A) -> bool
        ensures { Keeps self.old self.new }
    {
        let _known = self.is_tenant(0);
        if !self.is_due() {
            return false;
        }
        self.give_up();
        self.flush_all(alloc);
        true
    }

    /// Gets what is missing of the memory that is held back, where it is refused once more after leaves were drained.
    fn hold_back(&mut self, alloc: A) -> Result<(), AllocError>
        ensures { Keeps self.old self.new }
    {
        let _known = self.is_tenant(0);
        if self.fill(alloc).is_ok() {
            return Ok(());
        }
        self.drain(alloc);
        self.fill(alloc)
    }

    /// Whether a command of this kind can be tried: a write that is no removal first gets back what is missing of the memory that is
    /// held back. A read and a removal always can, and the core is as it was.
    fn is_ready(&mut self, alloc: A, kind: Kind) -> bool
        ensures keeps { Keeps self.old self.new }
        ensures ready { kind ≢ Growth → IsTrue result }
        ensures same { kind ≢ Growth → self.new ≡ self.old }
    {
        let _known = self.is_tenant(0);
        match kind {
            Kind::Growth => self.hold_back(alloc).is_ok(),
            Kind::Removal | Kind::Read => true,
        }
    }

    /// Frees what can be had for a command of this kind to which memory was refused. It answers whether the command can be tried once
    /// more: a removal always can, and what only reads is not.
    fn makes_way(&mut self, alloc: A, kind: Kind) -> bool
        ensures keeps { Keeps self.old self.new }
        ensures removal { kind ≡ Removal → IsTrue result }
        ensures read { kind ≡ Read → IsFalse result }
        ensures same { kind ≡ Read → self.new ≡ self.old }
    {
        let _known = self.is_tenant(0);
        match kind {
            Kind::Growth => self.drain(alloc),
            Kind::Removal => {
                self.drain(alloc);
                self.give_up();
                true
            }
            Kind::Read => false,
        }
    }

    /// Finds what a command says to which memory was refused, once what can be had for it is freed.
    fn prepare_again<'a>(
        &mut self,
        alloc: A,
        tenant: u32,
        command: Command<'a>,
    ) -> Result<Prepared<'a, A>, AllocError>
        requires is_tenant { IsTenant self.old.entries tenant }
        requires sound { IsSound (shared_of self.old) }
        requires legal { HasLegalKeys (command_of command) }
        ensures { IsPrepared self.old tenant (serves (command_of command.entry)) self.new result }
    {
        let kind = kind_of(command);
        if !self.makes_way(alloc, kind) {
            return Err(AllocError);
        }
        if !self.is_ready(alloc, kind) {
            return Err(AllocError);
        }
        self.prepare_once(alloc, tenant, command)
    }

    /// Finds what a command says. Where memory is refused to a write, it is tried once more, with what can be freed for it. A PING
    /// without a text needs none.
    #[inline(always)]
    pub(crate) fn prepare_command<'a>(
        &mut self,
        alloc: A,
        tenant: u32,
        command: Command<'a>,
    ) -> Result<Prepared<'a, A>, AllocError>
        requires is_tenant { IsTenant self.old.entries tenant }
        requires sound { IsSound (shared_of self.old) }
        requires legal { HasLegalKeys (command_of command) }
        ensures prepared { IsPrepared self.old tenant (serves (command_of command.entry))
            self.new result }
        ensures needless { command_of command.entry ≡ Ping → IsOk result }
    {
        if !self.is_ready(alloc, kind_of(command)) {
            return self.prepare_again(alloc, tenant, command);
        }
        let prepared = self.prepare_once(alloc, tenant, command);
        if prepared.is_ok() {
            return prepared;
        }
        self.prepare_again(alloc, tenant, command)
    }
}
