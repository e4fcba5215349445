ghost use Rattle.std.specs.Prelude.{◌≡◌, ◌<◌, ◌≤◌, ◌^◌, map, length, IfOk};
ghost use Rattle.std.specs.Option.{option_copied};
ghost use Rattle.ug_nodes.specs.Changes.{IsRising};
ghost use Rattle.ug_nodes.specs.Primitive.{lent};
ghost use Rattle.ug_rules.specs.Books.{IsBook, IsSoundBook};
ghost use Rattle.ug_image.specs.Images.{IsImage};
ghost use Rattle.ug_image.specs.Spelling.{spelled};
ghost use Rattle.ug_snapshot.specs.Moments.{saved_of, image_with, IsImageOf, IsCovered, HasNumbers, HaveHands};

use std::alloc::{AllocError, Global};
use ug_book::Book;
use ug_image::{Image, Saved, SavedNode, length};
use ug_lists::Items;
use ug_nodes::Node;
use ug_rows::Point;

/// Returns the image of this moment of the book, under a sequence number. An image of 2^63 bytes or
/// more, which no memory can hold, counts as out of memory.
pub fn image_of(alloc: Global, book: &Book, sequence: u64) -> Result<Image, AllocError>
    requires { 1 ≤ sequence }
    ensures moment { IfOk result (IsImageOf book.now sequence) }
    ensures image { IfOk result IsImage }
    ensures short { IfOk result (λ image. length (spelled image) < 2 ^ 63) }
    ensures covered { IsSoundBook book.now → IfOk result IsCovered }
{
    let nodes = book.primitive()?;
    let made = with_nodes(alloc, book, nodes.as_slice(), sequence);
    drop(nodes);
    let image = made?;
    within(image)
}

// The image with these nodes.
fn with_nodes(
    alloc: Global,
    book: &Book,
    nodes: &[&Node],
    sequence: u64,
) -> Result<Image, AllocError>
    ensures value { IfOk result (λ image. image ≡ image_with book.now (lent nodes.now) sequence) }
    ensures hands { IfOk result (λ image. HaveHands image.nodes) }
    ensures numbers { IfOk result HasNumbers }
    ensures book { IsBook book.now }
{
    let problem = book.problem().share()?;
    let best = match copied(alloc, book.best()) {
        Ok(best) => best,
        Err(error) => {
            drop(problem);
            return Err(error);
        }
    };
    let nodes = match saved(alloc, nodes) {
        Ok(nodes) => nodes,
        Err(error) => {
            drop(problem);
            drop(best);
            return Err(error);
        }
    };
    Ok(Image {
        run: book.run(),
        sequence,
        problem,
        best,
        heard: book.heard(),
        gap: book.settings().gap,
        nodes,
    })
}

// The image, if it has less than 2^63 bytes.
fn within(image: Image) -> Result<Image, AllocError>
    ensures same { IfOk result (λ made. made ≡ image) }
    ensures short { IfOk result (λ made. length (spelled made) < 2 ^ 63) }
{
    if length(&image) < 1 << 63 {
        Ok(image)
    } else {
        drop(image);
        Err(AllocError)
    }
}

fn copied(alloc: Global, best: Option<&Point>) -> Result<Option<Point>, AllocError>
    ensures { IfOk result (λ copy. copy ≡ option_copied best.entry) }
{
    match best {
        None => Ok(None),
        Some(point) => {
            let values = Vec::from_slice(alloc, point.as_slice())?;
            Ok(Some(Point::from_vec(values)))
        }
    }
}

// Returns the saved form of the nodes.
fn saved(alloc: Global, nodes: &[&Node]) -> Result<Saved, AllocError>
    ensures value { IfOk result (λ made. made ≡ map saved_of (lent nodes.now)) }
    ensures hands { IfOk result HaveHands }
{
    let mut made = Items::new(alloc);
    for node in nodes {
        made.push(saved_node(node)?)?;
    }
    Ok(made)
}

fn saved_node(node: &Node) -> Result<SavedNode, AllocError>
    ensures value { IfOk result (λ made. made ≡ saved_of node.now) }
    ensures hand { IfOk result (λ made. made.name.hand < 2 ^ 64) }
{
    Ok(SavedNode {
        name: node.line.name(),
        changes: node.changes.clone()?,
    })
}
