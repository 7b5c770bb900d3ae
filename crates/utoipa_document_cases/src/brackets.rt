//! What is joined pair by pair.

use std::alloc::{AllocError, Global};
use utoipa::openapi::{Bracketing, OpenApi};

/// Something in brackets. A trait, so that what stands in the brackets is let go by one call where memory runs out.
pub trait Brackets: Drop {
    /// What stands in the brackets.
    type Leaf: Drop;

    /// That alone.
    fn leaf(leaf: Self::Leaf) -> Self;

    /// A pair. Fails where memory runs out.
    fn join(alloc: Global, left: Self, right: Self) -> Result<Self, AllocError>;
}

impl Brackets for Bracketing {
    type Leaf = OpenApi;

    fn leaf(leaf: OpenApi) -> Bracketing {
        Bracketing::Leaf(leaf)
    }

    fn join(alloc: Global, left: Bracketing, right: Bracketing) -> Result<Bracketing, AllocError> {
        let (left, right) = boxes(alloc, left, right)?;
        Ok(Bracketing::Join(left, right))
    }
}

fn boxes<T: Drop>(alloc: Global, left: T, right: T) -> Result<(Box<T>, Box<T>), AllocError> {
    let left = Box::new(alloc, left)?;
    Ok((left, Box::new(alloc, right)?))
}

/// `((a b) c)`, and so on; of nothing there are no brackets. Fails where memory runs out.
pub fn from_left<B: Brackets>(
    alloc: Global,
    leaves: Vec<B::Leaf>,
) -> Result<Option<B>, AllocError> {
    let mut brackets = None;
    for leaf in leaves {
        let leaf = B::leaf(leaf);
        brackets = Some(match brackets {
            Some(left) => B::join(alloc, left, leaf)?,
            None => leaf,
        });
    }
    Ok(brackets)
}

/// `(a (b c))`, and so on; of nothing there are no brackets. Fails where memory runs out.
pub fn from_right<B: Brackets>(
    alloc: Global,
    leaves: Vec<B::Leaf>,
) -> Result<Option<B>, AllocError> {
    let mut brackets = None;
    for leaf in leaves.into_iter().rev() {
        let leaf = B::leaf(leaf);
        brackets = Some(match brackets {
            Some(right) => B::join(alloc, leaf, right)?,
            None => leaf,
        });
    }
    Ok(brackets)
}
