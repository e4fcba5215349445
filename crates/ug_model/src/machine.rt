ghost use Rattle.std.specs.Prelude.{◌≡◌, None, IfErr, OnErr, OnOk};
ghost use Rattle.ug_rules.specs.Books.{AreSettings};
ghost use Rattle.ug_laws.specs.DiskEvents.{IsDiskEvent, IsSendable};
ghost use Rattle.ug_model.specs.Machines.{store};
ghost use Rattle.ug_laws.specs.Machines.{HappensOnDisk, HasNoted, HasRestarted, IsAble, IsSavedOrNot, OfWorld, beginning};
ghost use Rattle.ug_model.specs.Machines.{world_of};
ghost use Rattle.ug_model.specs.DiskHalts.{IsHalted, IsLeft, IsNotLeft, IsOutOfWorld, IsRefused, IsStill};
ghost use Rattle.ug_model.specs.DiskPlays.{IsLeftOf};

use crate::disk_schedule::PlayedDisk;
use crate::halt::Halted;
use crate::playing::{Left, Playing};
use crate::ranks::check_rank;
use crate::saving::save;
use crate::starting::begin_again;
use std::alloc::{AllocError, Global};
use std::mem;
use ug_book::Book;
use ug_checkpoint::Saver;
use ug_disk::MemoryDisk;
use ug_image::Image;
use ug_laws::{DiskEvent, Event};
use ug_lists::Items;
use ug_restart::{Attempt, StartFault};
use ug_rules::Settings;
use ug_snapshot::image_of;

/// A coordinator, its solvers and the disk of its images.
#[derive(Drop)]
pub struct Machine {
    alloc: Global,
    disk: MemoryDisk,
    playing: Playing,
    saver: Saver,
    noted: Option<Image>,
    // Why the last restart was refused; the book and the saver are then those of the run before.
    refused: Option<StartFault>,
    // What became of each save, the earliest first.
    attempts: Vec<Attempt>,
}

impl Machine {
    /// A run whose first image is on the disk, before its first event.
    pub fn new(alloc: Global, book: Book, saver: Saver, disk: MemoryDisk) -> Machine
        ensures value { world_of result ≡ beginning book (store saver disk) }
    {
        Machine {
            alloc,
            disk,
            playing: Playing::new(alloc, book),
            saver,
            noted: None,
            refused: None,
            attempts: Vec::new(alloc),
        }
    }

    /// Why the last restart was refused, if it was.
    pub fn refused(&self) -> Option<StartFault>
        ensures { result ≡ (world_of self.now).refused }
    {
        self.refused
    }

    /// What it leaves.
    pub fn end(self) -> PlayedDisk
        ensures { IsLeftOf (world_of self) result }
    {
        let Machine {
            playing,
            saver,
            disk,
            noted,
            attempts,
            ..
        } = self;
        drop(noted);
        let Left {
            book,
            replies,
            decisions,
        } = playing.end();
        PlayedDisk {
            book,
            saver,
            disk,
            replies: Items::from_vec(replies),
            decisions: Items::from_vec(decisions),
            attempts: Items::from_vec(attempts),
        }
    }

    /// An event happens. After an error nothing has changed.
    pub fn happen(&mut self, event: &DiskEvent) -> Result<(), Halted>
        requires event { IsDiskEvent event.now }
        requires able { IsAble (world_of self.old) }
        ensures happened { OnOk result
            (HappensOnDisk (world_of self.old) event.now (world_of self.new)) }
        ensures halted { IfErr result
            (IsHalted (world_of self.old) event.now (world_of self.new)) }
        ensures able { IsAble (world_of self.new) }
    {
        match event {
            DiskEvent::World(event) => self.world(event),
            DiskEvent::Note => self.note(),
            DiskEvent::Save => self.save(),
            DiskEvent::Crash {
                zero,
                one,
                settings,
            } => {
                self.crash(zero, one)?;
                self.restart(*settings);
                Ok(())
            }
            DiskEvent::Stop { settings } => {
                self.disk.resume();
                self.restart(*settings);
                Ok(())
            }
        }
    }
}

impl Machine {
    // Plays an event of a run that continues, if its rank is one of the run's.
    fn world(&mut self, event: &Event) -> Result<(), Halted>
        requires event { IsSendable event.now }
        requires able { IsAble (world_of self.old) }
        ensures happened { OnOk result
            (OfWorld event.now (world_of self.old) (world_of self.new)) }
        ensures halted { IfErr result
            (IsOutOfWorld event.now (world_of self.old) (world_of self.new)) }
        ensures able { IsAble (world_of self.new) }
    {
        self.goes_on()?;
        check_rank(event, self.playing.book().settings().solvers)?;
        self.playing.happen(event)?;
        Ok(())
    }

    // The image of this moment is noted.
    fn note(&mut self) -> Result<(), Halted>
        requires { IsAble (world_of self.old) }
        ensures noted { OnOk result (HasNoted (world_of self.old) (world_of self.new)) }
        ensures halted { IfErr result (IsStill (world_of self.old) (world_of self.new)) }
        ensures able { IsAble (world_of self.new) }
    {
        self.goes_on()?;
        let image = image_of(self.alloc, self.playing.book(), 1)?;
        drop(mem::replace(&mut self.noted, Some(image)));
        Ok(())
    }

    // Saves the noted image, or makes an attempt, and records the result.
    fn save(&mut self) -> Result<(), Halted>
        requires { IsAble (world_of self.old) }
        ensures saved { OnOk result (IsSavedOrNot (world_of self.old) (world_of self.new)) }
        ensures halted { IfErr result (IsStill (world_of self.old) (world_of self.new)) }
        ensures able { IsAble (world_of self.new) }
    {
        self.goes_on()?;
        self.attempts.reserve(1)?;
        if let Some(image) = &mut self.noted {
            let attempt = save(self.alloc, &mut self.disk, &mut self.saver, image);
            drop(self.attempts.push(attempt));
        }
        Ok(())
    }

    // Power fails, and leaves these bytes of the slots.
    fn crash(&mut self, zero: &[u8], one: &[u8]) -> Result<(), Halted>
        ensures left { OnOk result
            (IsLeft zero.now one.now (world_of self.old) (world_of self.new)) }
        ensures halted { IfErr result
            (IsNotLeft zero.now one.now (world_of self.old) (world_of self.new)) }
    {
        let zero = Vec::from_slice(self.alloc, zero)?;
        let one = Vec::from_slice(self.alloc, one)?;
        match self.disk.crash(zero, one) {
            Ok(()) => Ok(()),
            Err(fault) => Err(Halted::NotAllowed { slot: fault.slot }),
        }
    }

    // The coordinator restarts, or is refused.
    fn restart(&mut self, settings: Settings)
        requires { AreSettings settings }
        ensures restarted { HasRestarted settings (world_of self.old) (world_of self.new) }
        ensures able { IsAble (world_of self.new) }
    {
        drop(mem::replace(&mut self.noted, None));
        match begin_again(self.alloc, &mut self.disk, self.playing.book(), settings) {
            Ok((book, saver)) => {
                self.playing.replace(book);
                self.saver = saver;
                self.refused = None;
            }
            Err(fault) => self.refused = Some(fault),
        }
    }

    // Whether the last restart was made.
    fn goes_on(&self) -> Result<(), Halted>
        ensures goes { OnOk result ((world_of self.now).refused ≡ None) }
        ensures halted { IfErr result (λ halted. IsRefused (world_of self.now) halted) }
    {
        match self.refused {
            None => Ok(()),
            Some(fault) => Err(Halted::Refused(fault)),
        }
    }
}
