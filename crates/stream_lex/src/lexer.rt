//! The lexer: the bytes that were fed, and how far they were read.

ghost use Rattle.std.specs.Prelude.{◌≡◌, ◌+◌, ◌≤◌, ℕ, List, ◌++◌, length, Ok, Err, OnOk, OnErr};
ghost use Rattle.std.specs.{Prelude.{IfErr, ◌⊎◌}, Borrow.{sem}};
ghost use Rattle.stream_lex.specs.{Items.{Item as ItemRead, Failed}, Running.{Leads, extended}};
ghost use Rattle.stream_lex.specs.{Lexer.{ended, held_bytes, new_lexer}, Search.{counted_on}};

use crate::cursor::{Cursor, give_up_taken, next_item};
use crate::fault::Fault;
use crate::item::Item;
use crate::place::Place;
use crate::search::Search;
use std::alloc::Global;
use std::marker::Model;

/// Reads the items of a stream that comes in pieces, wherever it is cut: git-fast-import(1), "Input
/// Format".
#[derive(Drop)]
pub struct Lexer {
    buffer: Vec<u8>,
    cursor: Cursor,
    fed: u64,
}

impl Model for Lexer {
    ghost use Rattle.stream_lex.specs.Lexer.{LexerState};

    ghost Value = { LexerState };

    ghost use Rattle.stream_lex.specs.Cursor.{lexer_state, IsLexer};

    ghost view = { λ lexer. lexer_state lexer.buffer.items lexer.cursor lexer.fed };

    ghost invariant = { λ lexer. IsLexer lexer.buffer.items lexer.cursor lexer.fed };
}

impl Lexer {
    ghost use Rattle.stream_lex.specs.Lending.{RestsTaken};

    /// A lexer at the beginning of a stream. Takes no memory.
    pub fn new(alloc: Global) -> Self
        ensures { result ≡ new_lexer }
    {
        Lexer {
            buffer: Vec::new(alloc),
            cursor: Cursor {
                taken: 0,
                place: Place::Line { after_data: false },
                search: Search {
                    seen: 0,
                    searched: 0,
                },
            },
            fed: 0,
        }
    }

    /// Takes the next piece of the stream, which may be cut at any byte. `next` then gives the
    /// items that the piece completes.
    ///
    /// `Fault::Memory` (90) if the buffer cannot grow. A lexer that has failed answers its fault
    /// again. The lexer is unchanged after either.
    pub fn feed(&mut self, piece: &[u8]) -> Result<(), Fault>
        ensures ok { OnOk result (self.new.tail ≡ extended self.old.tail piece.now) }
        ensures leads { OnOk result ((bytes : List ℕ) (items : List ItemRead)
            → Leads bytes items self.old.tail → Leads (bytes ++ piece.now) items self.new.tail) }
        ensures fed { OnOk result (self.new.fed ≡ counted_on self.old.fed (length piece.now)) }
        ensures searched { self.new.searched ≡ self.old.searched }
        ensures unchanged { OnErr result (self.new ≡ self.old) }
        ensures failed { (fault : Fault) → self.old.tail ≡ Failed fault → result ≡ Err fault }
        ensures fault { IfErr result (λ fault. (fault ≡ Fault.Memory)
            ⊎ (self.old.tail ≡ Failed fault)) }
    {
        if let Place::Failed(fault) = self.cursor.place {
            return Err(fault);
        }
        give_up_taken(&mut self.buffer, &mut self.cursor, piece.len());
        self.buffer.extend_from_slice(piece)?;
        self.fed = self.fed.saturating_add(piece.len() as u64);
        Ok(())
    }

    /// The next item, or `None` if the bytes so far hold no whole one. The item borrows from the
    /// buffer and can be used until the next call. Takes no memory.
    ///
    /// `Fault::LineTooLong` (1) if a line has more than 1,048,575 bytes, `Fault::BadData` (4) if a
    /// data header has a bad count or an empty delimiter, `Fault::Limit` (25) if a data has more
    /// than 67,108,864 bytes. From then on `feed`, `next` and `end` answer that fault.
    pub fn next(&mut self) -> Result<Option<Item<'_>>, Fault>
        ensures* after { sem 𝓛 (RestsTaken self.entry result) }
    {
        next_item(&self.buffer, &mut self.cursor)
    }

    /// Whether the stream may end here. Call it after `next` has answered `None`. Takes no memory.
    ///
    /// `Fault::CutOff` (6) if bytes are left: an unfinished line, comment or data, or items that
    /// were not taken. A lexer that has failed answers its fault again.
    pub fn end(&self) -> Result<(), Fault>
        ensures { result ≡ ended self.now.tail }
    {
        match self.cursor.place {
            Place::Failed(fault) => Err(fault),
            _ if self.cursor.taken == self.buffer.len() => Ok(()),
            _ => Err(Fault::CutOff),
        }
    }

    /// How many bytes are held whose item was not given yet; 0 after a fault. Takes no memory.
    pub fn held(&self) -> usize
        ensures { result ≡ held_bytes self.now.tail }
    {
        match self.cursor.place {
            Place::Failed(_) => 0,
            _ => self.buffer.len() - self.cursor.taken,
        }
    }

    /// How many bytes the searches for line ends have scanned so far, never more than `fed`. Takes
    /// no memory.
    pub fn searched(&self) -> u64
        ensures value { result ≡ self.now.searched }
        ensures bound { result ≤ self.now.fed }
    {
        self.cursor.search.searched
    }

    /// How many bytes were fed so far; it stays at 2^64 - 1. Takes no memory.
    pub fn fed(&self) -> u64
        ensures { result ≡ self.now.fed }
    {
        self.fed
    }
}
