use pw_base::bytes::Bytes;
use pw_base::memory::Memory;
use pw_code::copies::Duplicate;
use pw_code::same::Same;
use pw_image::changed::Changes;
use std::alloc::Global;

/// What a checkpoint message is for.
#[derive(Clone, Copy, Debug, PartialEq, Eq)]
pub enum CheckKind {
    /// The path before a unit.
    Start,
    /// The path behind a unit.
    End,
    /// The path, for a new backup.
    Copy,
}

/// A checkpoint message, as the primary has it.
#[derive(Debug, Drop)]
pub struct CheckMessage {
    /// The number of the terminal.
    pub terminal: u32,
    pub kind: CheckKind,
    /// The number of the unit on its terminal; it says nothing in an End.
    pub unit: u32,
    /// The image of the path.
    pub image: Bytes,
}

/// What a message carries of its image.
#[derive(Debug, Drop)]
pub enum Body {
    /// The whole image.
    Whole(Bytes),
    /// The records of the image that differ from those of the start image that the backup holds.
    Delta(Changes),
}

/// A checkpoint message on its way.
#[derive(Debug, Drop)]
pub struct Carried {
    pub kind: CheckKind,
    pub unit: u32,
    pub body: Body,
}

impl Duplicate for Body {
    fn copy(&self, alloc: Global) -> Result<Body, Memory> {
        match self {
            Body::Whole(image) => Ok(Body::Whole(image.copy(alloc)?)),
            Body::Delta(changes) => Ok(Body::Delta(changes.copy(alloc)?)),
        }
    }
}

impl Same for Body {
    fn is_same(&self, other: &Body) -> bool {
        match (self, other) {
            (Body::Whole(image), Body::Whole(other)) => image.is_same(other),
            (Body::Delta(changes), Body::Delta(other)) => changes.is_same(other),
            _ => false,
        }
    }
}

impl Duplicate for Carried {
    fn copy(&self, alloc: Global) -> Result<Carried, Memory> {
        let body = self.body.copy(alloc)?;
        Ok(Carried {
            kind: self.kind,
            unit: self.unit,
            body,
        })
    }
}

impl Same for Carried {
    fn is_same(&self, other: &Carried) -> bool {
        self.kind == other.kind && self.unit == other.unit && self.body.is_same(&other.body)
    }
}
