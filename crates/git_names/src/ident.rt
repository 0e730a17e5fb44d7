//! Idents say who made something and when: git-fast-import(1), under "committer".
//!
//! An `Ident` is the text as a commit or a tag has it, such as `A <a@b> 1700000000 +0100`. It never
//! begins with `<`: if a stream gives no name, a space takes its place.

ghost use Rattle.std.specs.Prelude.{◌≡◌, ◌↔◌, IsTrue, IsSome, Ok, Err, None, IfOk, IfSome};
ghost use Rattle.git_model.specs.Ident.{NamesPerson, IsIdent, IsWrittenIdent, written_ident};
ghost use Rattle.git_model.specs.IdentReading.{read_ident, ident_time};
ghost use Rattle.git_names.specs.Ident.{Answers, IsFaultOf};

use crate::ident_fault::IdentFault;
use crate::ident_text::{after_person, is_date, seconds_of};
use git_model::Memory;
use std::alloc::Global;
use std::marker::Model;

/// Who made something and when, as commits and tags write it.
#[derive(Debug, Drop)]
pub struct Ident {
    text: Vec<u8>,
}

impl Model for Ident {
    ghost use Rattle.std.specs.Prelude.{ℕ, List};
    ghost use Rattle.git_model.specs.Ident.{IsWrittenIdent};

    ghost Value = { List ℕ };

    ghost view = { λ ident. ident.text.items };

    ghost invariant = { λ ident. IsWrittenIdent ident.text.items };
}

impl Ident {
    /// Reads an ident as a stream writes it: git-fast-import(1), under "committer". An ident that
    /// begins with `<` gets one space before it.
    ///
    /// `IdentFault::BadIdentity` (21) if the text does not begin with a name, an email and a space.
    /// Else `IdentFault::BadDate` (22) if the rest is not a date: 1 to 20 digits with a value below
    /// 2^64, a space, a sign and four digits. Else `IdentFault::Memory` (90) if there is no memory
    /// for the copy.
    pub fn read(alloc: Global, text: &[u8]) -> Result<Ident, IdentFault>
        ensures found { IfOk result (λ ident. IsIdent text.now × (ident ≡ written_ident text.now)) }
        ensures identity { (result ≡ Err IdentFault.BadIdentity) ↔ (¬ NamesPerson text.now) }
        ensures date { (result ≡ Err IdentFault.BadDate)
            ↔ (NamesPerson text.now × ¬ IsIdent text.now) }
        // The same in one clause: what reading from left to right gives.
        ensures exact { Answers result (read_ident text.now) }
    {
        if let Some(fault) = fault_of(text) {
            return Err(fault);
        }
        let text = written(alloc, text)?;
        Ok(Ident { text })
    }

    /// Copies an ident from an object. `None` for every text that an object cannot have as an
    /// ident, such as one that begins with `<`.
    ///
    /// `Memory` (90) if there is no memory for the copy.
    pub fn from_written(alloc: Global, text: &[u8]) -> Result<Option<Ident>, Memory>
        ensures found { IfOk result (λ found. IfSome found
            (λ ident. IsWrittenIdent text.now × (ident ≡ text.now))) }
        ensures only { IsWrittenIdent text.now → IfOk result IsSome }
        ensures other { ¬ IsWrittenIdent text.now → result ≡ Ok None }
    {
        if !is_written_ident(text) {
            return Ok(None);
        }
        let text = Vec::from_slice(alloc, text)?;
        Ok(Some(Ident { text }))
    }

    /// The text of the ident. It never begins with `<`. Takes no memory.
    pub fn as_bytes(&self) -> &[u8]
        ensures text { result.now ≡ self.now }
        ensures written { IsWrittenIdent self.now }
    {
        self.text.as_slice()
    }

    /// The date of the ident, in seconds since 1970. Takes no memory.
    pub fn time(&self) -> u64
        ensures { result ≡ ident_time self.now }
    {
        time_of(self.as_bytes())
    }

    /// A copy of the ident. `Memory` (90) if it cannot be allocated.
    pub fn try_clone(&self, alloc: Global) -> Result<Ident, Memory>
        ensures { IfOk result (λ copy. copy ≡ self.now) }
    {
        let text = Vec::from_slice(alloc, self.text.as_slice())?;
        Ok(Ident { text })
    }
}

/// Whether a text is an ident as objects have it, which does not begin with `<`. Takes no memory.
pub fn is_written_ident(text: &[u8]) -> bool
    ensures { IsTrue result ↔ IsWrittenIdent text.now }
{
    !text.starts_with(b"<") && is_ident(text)
}

// Whether a text is an ident.
fn is_ident(text: &[u8]) -> bool
    ensures { IsTrue result ↔ IsIdent text.now }
{
    fault_of(text).is_none()
}

// What is wrong with a text that is not an ident. The identity is checked before the date.
#[tactic(auto, unfolding(git_model::specs::IdentReading::read_ident))]
fn fault_of(text: &[u8]) -> Option<IdentFault>
    ensures { IsFaultOf text.now result }
{
    match after_person(text) {
        Some(date) if is_date(date) => None,
        Some(_) => Some(IdentFault::BadDate),
        None => Some(IdentFault::BadIdentity),
    }
}

// The seconds of an ident.
fn time_of(text: &[u8]) -> u64
    requires { IsIdent text.now }
    ensures { result ≡ ident_time text.now }
{
    match after_person(text) {
        Some(date) => seconds_of(date).unwrap_or(0),
        None => 0,
    }
}

// A copy of an ident, with a space before it if it begins with `<`.
fn written(alloc: Global, text: &[u8]) -> Result<Vec<u8>, Memory>
    ensures { IfOk result (λ copy. copy.items ≡ written_ident text.now) }
{
    let mut copy = Vec::new(alloc);
    if let [b'<', ..] = text {
        copy.push(b' ')?;
    }
    copy.extend_from_slice(text)?;
    Ok(copy)
}
