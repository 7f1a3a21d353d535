// Code that grows.
use crate::NoMemory;
use crate::piece::Piece;
use rv64_isa::Instr;
use std::alloc::Global;
use std::marker::Model;

/// Pieces of code, one behind the other. Contracts see the plain code that they stand for.
#[derive(Drop)]
pub struct Code {
    pieces: Vec<Piece>,
}

impl Model for Code {
    ghost use Rattle.std.specs.Prelude.{List, map};
    ghost use Rattle.machine_forms.specs.Piece.{Piece as PlainPiece};

    ghost Value = { List PlainPiece };

    ghost use Rattle.rv64_emit.specs.View.{piece_of};

    ghost view = { λ code. map piece_of code.pieces.items };
}

impl Code {
    ghost use Rattle.std.specs.Prelude.{◌≡◌, ◌++◌, ◌<◌, [], ◌∷◌, length, map, slice_set, OnOk};
    ghost use Rattle.machine_forms.specs.Piece.{instruction};
    ghost use Rattle.rv64_emit.specs.View.{piece_of};

    /// No code.
    pub fn new(alloc: Global) -> Code
        ensures { result ≡ [] }
    {
        Code {
            pieces: Vec::new(alloc),
        }
    }

    /// Puts a piece behind the others.
    pub fn push(&mut self, piece: Piece) -> Result<(), NoMemory>
        ensures { OnOk result (self.new ≡ self.old ++ piece_of piece ∷ []) }
    {
        self.pieces.extend_from_slice(&[piece])?;
        Ok(())
    }

    /// Puts an instruction behind the others.
    pub fn put(&mut self, instr: Instr) -> Result<(), NoMemory>
        ensures { OnOk result (self.new ≡ self.old ++ instruction instr ∷ []) }
    {
        self.pieces.push(Piece::Instruction(instr))?;
        Ok(())
    }

    /// How many words they will be.
    pub fn len(&self) -> usize
        ensures { result ≡ length self.now }
    {
        self.pieces.len()
    }

    /// Puts a piece in the place of another.
    pub fn set(&mut self, place: usize, piece: Piece)
        requires { place < length self.old }
        ensures { self.new ≡ slice_set self.old place (piece_of piece) }
    {
        self.pieces[place] = piece;
    }

    /// The pieces.
    pub fn as_slice(&self) -> &[Piece]
        ensures { map piece_of result.now ≡ self.now }
    {
        self.pieces.as_slice()
    }
}
