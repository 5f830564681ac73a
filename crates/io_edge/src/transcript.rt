//! What reads gave. Only clauses read it: it takes no bytes, and its methods do nothing when the program runs.
ghost use Rattle.std.specs.Prelude.{◌≡◌, ◌++◌, ◌∷◌, [], List, ℕ, map, string_bytes};
ghost use Rattle.std.specs.Borrow.{ftrue};
ghost use Rattle.io_edge.specs.Given.{Piece, piece_of};

use std::marker::Model;

/// The names of a store's files and what its reads gave, or what the stores gave that a site took back.
#[derive(Drop)]
pub struct Transcript {
    pub ghost names: { List (List ℕ) },
    pub ghost pieces: { List Piece },
}

impl Model for Transcript {
    ghost also_owns = { λ _. ftrue };
}

// It owns nothing.
unsafe impl Send for Transcript {}

unsafe impl Sync for Transcript {}

impl Transcript {
    /// Nothing was read yet of files with these names.
    pub(crate) fn new(_names: &[String]) -> Transcript
        ensures { (result.names ≡ map string_bytes _names.now) × (result.pieces ≡ []) }
    {
        Transcript {}
    }

    /// A call read these bytes. The numbers are the place of its file, the file's length in bytes, and the offset.
    pub(crate) fn note(&mut self, _numbers: &[u64], _bytes: &[u8])
        ensures { (self.new.names ≡ self.old.names) × (self.new.pieces ≡ self.old.pieces ++ piece_of self.old.names _numbers.now _bytes.now ∷ []) }
    {}

    /// Another one's pieces come behind its own.
    pub(crate) fn add(&mut self, _more: &Transcript)
        ensures { (self.new.names ≡ self.old.names) × (self.new.pieces ≡ self.old.pieces ++ _more.now.pieces) }
    {}
}
