//! Sites in memory as lines describe them.
use crate::text::bytes_of;
use crate::words::{Trouble, Words, number};
use io_edge::{Counted, Kind, MemorySite, Refusal};
use std::alloc::{AllocError, Global};

/// A file that each new site has.
#[derive(Drop)]
struct Shelved {
    name: String,
    bytes: Vec<u8>,
}

/// What each new site has.
#[derive(Drop)]
pub struct Desk {
    shelf: Vec<Shelved>,
    room: usize,
    /// How many bytes a call moves at most; as many as there are, where this is 0.
    most: usize,
    refusals: Vec<Refusal>,
}

const KINDS: [(&str, Kind); 11] = [
    ("open", Kind::Open),
    ("length", Kind::Length),
    ("read", Kind::Read),
    ("create", Kind::Create),
    ("write", Kind::Write),
    ("out", Kind::Out),
    ("err", Kind::Err),
    ("spill", Kind::Spill),
    ("put", Kind::Put),
    ("get", Kind::Get),
    ("delete", Kind::Delete),
];

/// The kind of call that a word names.
pub fn kind_of(word: &str) -> Result<Kind, Trouble> {
    for (name, kind) in KINDS {
        if name == word {
            return Ok(kind);
        }
    }
    Err(Trouble::Ill)
}

// `KIND:CALL`, or `KIND:CALL@OBJECT`.
fn refusal(word: &str) -> Result<Refusal, Trouble> {
    let (kind, place) = word.split_once(':').ok_or(Trouble::Ill)?;
    let kind = kind_of(kind)?;
    let (call, object) = place.split_once('@').unwrap_or((place, ""));
    let call = number(call)?;
    let counted = if object.is_empty() {
        Counted::OverAll
    } else {
        Counted::AtObject(number(object)?)
    };
    Ok(Refusal {
        kind,
        counted,
        call,
    })
}

fn refusals(alloc: Global, text: &str) -> Result<Vec<Refusal>, Trouble> {
    let mut list = Vec::new(alloc);
    for word in text.split_whitespace() {
        list.push(refusal(word)?)?;
    }
    Ok(list)
}

fn put_all(alloc: Global, site: &mut MemorySite, shelf: &[Shelved]) -> Result<(), AllocError> {
    for file in shelf {
        site.put(alloc, file.name.as_str(), &file.bytes)?;
    }
    Ok(())
}

impl Desk {
    pub fn new(alloc: Global) -> Self {
        Desk {
            shelf: Vec::new(alloc),
            room: 4096,
            most: 0,
            refusals: Vec::new(alloc),
        }
    }

    /// Puts a file onto the shelf: a name, and bytes up to the end of the line.
    pub fn shelve(&mut self, alloc: Global, words: &mut Words) -> Result<(), Trouble> {
        let name = String::from_str(alloc, words.word())?;
        let bytes = bytes_of(alloc, words.rest)?;
        self.shelf.push(Shelved { name, bytes })?;
        Ok(())
    }

    /// The room of each stream, how many bytes a call moves at most, and the calls that fail.
    pub fn set(&mut self, alloc: Global, words: &mut Words) -> Result<(), Trouble> {
        let room = words.below(65536)? as usize;
        let most = words.below(65536)? as usize;
        self.refusals = refusals(alloc, words.rest)?;
        self.room = room;
        self.most = most;
        Ok(())
    }

    // A site of which these calls fail.
    fn failing(&self, alloc: Global, refusals: Vec<Refusal>) -> Result<MemorySite, AllocError> {
        let mut site = MemorySite::new(alloc, self.room, refusals)?;
        put_all(alloc, &mut site, &self.shelf)?;
        if self.most > 0 {
            site.set_most(self.most);
        }
        Ok(site)
    }

    /// A site of which no call fails.
    pub fn sound_site(&self, alloc: Global) -> Result<MemorySite, AllocError> {
        self.failing(alloc, Vec::new(alloc))
    }

    /// A site, of which one more call fails.
    pub fn site(&self, alloc: Global, also: Option<Refusal>) -> Result<MemorySite, AllocError> {
        let mut refusals = Vec::from_slice(alloc, &self.refusals)?;
        if let Some(refusal) = also {
            refusals.push(refusal)?;
        }
        self.failing(alloc, refusals)
    }
}
