ghost use Rattle.std.specs.Prelude.{◌≡◌, Some, All, IfOk};
ghost use Rattle.ug_disk.specs.Memories.{history_of};
ghost use Rattle.ug_checkpoint.specs.Savers.{IsKept, sequence_of};
ghost use Rattle.ug_nodes.specs.Changes.{AreChangesOf};
ghost use Rattle.ug_image.specs.Images.{IsImage};

use crate::start::problem;
use std::alloc::{AllocError, Global};
use ug_book::{Book, Boxes, Opening};
use ug_branch::Base;
use ug_checkpoint::{Saver, load};
use ug_disk::{MemoryDisk, Script};
use ug_image::{Image, length};
use ug_nodes::{Change, Changes, area_of};
use ug_rows::IntBox;
use ug_rules::Settings;
use ug_snapshot::image_of;

/// How far a save goes.
#[derive(Clone, Copy, PartialEq, Eq)]
pub enum Stage {
    /// The image of a book is made.
    Image,
    /// And it is saved.
    Save,
    /// And it is loaded again.
    Load,
}

/// What was saved.
#[derive(Clone, Copy)]
pub struct Size {
    pub nodes: usize,
    pub bytes: u64,
    /// How many nodes were loaded.
    pub loaded: usize,
}

impl Size {
    /// Each number with its word.
    pub fn lines(&self) -> [(&'static str, u64); 3] {
        [
            ("nodes", self.nodes as u64),
            ("bytes", self.bytes),
            ("loaded", self.loaded as u64),
        ]
    }
}

/// Saves the image of a book of this many nodes, each of ten changes, and loads it.
pub fn save_nodes(alloc: Global, count: u32, stage: Stage) -> Result<Size, AllocError> {
    let image = image(alloc, count)?;
    let size = size_of(alloc, &image, stage);
    drop(image);
    size
}

// How large the image is, and how many of its nodes are loaded again.
fn size_of(alloc: Global, image: &Image, stage: Stage) -> Result<Size, AllocError>
    requires { IsImage image.now }
{
    let loaded = if stage == Stage::Image {
        0
    } else {
        saved(alloc, image, stage)?
    };
    Ok(Size {
        nodes: image.nodes.len(),
        bytes: length(image),
        loaded,
    })
}

// The image of a book of this many nodes.
fn image(alloc: Global, count: u32) -> Result<Image, AllocError>
    ensures { IfOk result IsImage }
{
    let book = book_of(alloc, count)?;
    let image = image_of(alloc, &book, 1);
    drop(book);
    image
}

// Saves the image on a new disk, and says how many nodes are loaded again.
fn saved(alloc: Global, image: &Image, stage: Stage) -> Result<usize, AllocError>
    requires { IsImage image.now }
{
    let mut disk = new_disk(alloc);
    let loaded = saved_on(alloc, &mut disk, image, stage);
    drop(disk);
    loaded
}

fn saved_on(
    alloc: Global,
    disk: &mut MemoryDisk,
    image: &Image,
    stage: Stage,
) -> Result<usize, AllocError>
    requires { IsImage image.now }
{
    save(alloc, disk, image)?;
    if stage == Stage::Save {
        return Ok(0);
    }
    loaded(alloc, disk)
}

// A disk of two empty slots, whose calls end.
fn new_disk(alloc: Global) -> MemoryDisk {
    let script = Script {
        failing: Vec::new(alloc),
        stopping: Vec::new(alloc),
    };
    MemoryDisk::new(alloc, Vec::new(alloc), Vec::new(alloc), script)
}

// A book of one solver with this many boxes.
fn book_of(alloc: Global, count: u32) -> Result<Book, AllocError> {
    let problem = problem(alloc)?;
    let boxes = match boxes_of(alloc, problem.problem().root(), count) {
        Ok(boxes) => boxes,
        Err(error) => {
            drop(problem);
            return Err(error);
        }
    };
    let settings = Settings {
        solvers: 1,
        racing: false,
        base: Base::Bound,
        low: 1,
        high: 2,
        every: 1,
        limit: u64::MAX,
        winner: 20,
        gap: 0,
    };
    let opening = Opening {
        problem,
        run: 1,
        best: None,
        boxes,
        settings,
    };
    let book = Book::new(alloc, &opening);
    drop(opening);
    book
}

fn boxes_of(alloc: Global, root: &IntBox, count: u32) -> Result<Boxes, AllocError>
    ensures { IfOk result (All (AreChangesOf root.now)) }
{
    let mut boxes = Boxes::new(alloc);
    for number in 0..count {
        boxes.push(changes_of(alloc, root, number)?)?;
    }
    Ok(boxes)
}

// Ten changes of the root of a hundred columns from 0 to 7, by the bits of a number.
fn changes_of(alloc: Global, root: &IntBox, number: u32) -> Result<Changes, AllocError>
    ensures { IfOk result (AreChangesOf root.now) }
{
    let mut list = Vec::new(alloc);
    for place in 0..10u32 {
        let low = if (number >> (place + 10)) & 1 == 1 {
            1
        } else {
            0
        };
        list.push(Change {
            column: place * 10 + ((number >> place) & 1),
            low,
            high: 6,
        })?;
    }
    let Some(changes) = Changes::checked(list) else {
        return Err(AllocError);
    };
    let area = area_of(alloc, root, &changes);
    let is_box = area.is_ok();
    drop(area);
    if is_box {
        return Ok(changes);
    }
    drop(changes);
    Err(AllocError)
}

fn save(alloc: Global, disk: &mut MemoryDisk, image: &Image) -> Result<(), AllocError>
    requires { IsImage image.now }
{
    match load(alloc, disk) {
        Ok(None) => save_by(alloc, disk, Saver::new(None), image),
        found => {
            drop(found);
            Err(AllocError)
        }
    }
}

fn save_by(
    alloc: Global,
    disk: &mut MemoryDisk,
    saver: Saver,
    image: &Image,
) -> Result<(), AllocError>
    requires kept { IsKept saver (Some (history_of disk.old)) }
    requires first { sequence_of saver ≡ 0 }
    requires image { IsImage image.now }
{
    let mut saver = saver;
    if image.sequence == 0 || length(image) >= 1 << 63 {
        return Err(AllocError);
    }
    match saver.save(alloc, disk, image) {
        Ok(()) => Ok(()),
        Err(_) => Err(AllocError),
    }
}

// How many nodes are loaded.
fn loaded(alloc: Global, disk: &mut MemoryDisk) -> Result<usize, AllocError> {
    let loaded = load(alloc, disk);
    let count = match &loaded {
        Ok(Some(found)) => Ok(found.image.nodes.len()),
        _ => Err(AllocError),
    };
    drop(loaded);
    count
}
