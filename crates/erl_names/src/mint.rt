//! The numbers that one incarnation of a node draws.
ghost use Rattle.std.specs.Prelude.{◌≡◌, ◌+◌, ◌-◌, ◌^◌, ◌↔◌, IfOk, OnOk, OnErr, IsErr, IsOkUnless};
ghost use Rattle.std.specs.Option.{ok_or};
ghost use Rattle.erl_names.specs.Draw as draw;
ghost use Rattle.erl_names.specs.Minted.{nothing_drawn, drawn, id_of};
ghost use Rattle.erl_names.specs.Ids.{pid_of, reference_of};

use crate::creation::Creation;
use crate::name::NodeName;
use erl_term::{Pid, Reference, ReferenceWords, Refusal};
use std::alloc::AllocError;
use std::marker::Model;

/// The highest count of a reference.
const MOST_REFERENCES: u32 = 262_143;

/// The name and creation of one incarnation of a node, and the numbers of pids, references and unlink
/// ids that it has drawn. No number of a kind comes twice from one mint. A clone draws the same numbers
/// as its original, so it stands for the same incarnation in another world.
///
/// (ERTS User's Guide, External Term Format, NEW_PID_EXT and NEWER_REFERENCE_EXT; Distribution
/// Protocol, New Link Protocol.)
#[derive(Debug, Drop)]
pub struct Mint {
    name: NodeName,
    creation: Creation,
    pids: u32,
    references: u32,
    unlink_ids: u64,
}

impl Model for Mint {
    ghost use Rattle.erl_names.specs.Minted.{Minted};

    ghost Value = { Minted };

    ghost view = { λ m. record { name = m.name; creation = m.creation; pids = m.pids; references = m.references; unlink_ids = m.unlink_ids } };
}

impl Clone for Mint {
    ghost is_clone = { λ mint copy. copy ≡ mint };

    fn clone(&self) -> Result<Mint, AllocError> {
        Ok(Mint {
            name: self.name.clone()?,
            creation: self.creation,
            pids: self.pids,
            references: self.references,
            unlink_ids: self.unlink_ids,
        })
    }
}

impl Mint {
    /// The mint of an incarnation that has drawn nothing yet.
    pub fn new(name: NodeName, creation: Creation) -> Mint
        ensures { result ≡ nothing_drawn name creation }
    {
        Mint {
            name,
            creation,
            pids: 0,
            references: 0,
            unlink_ids: 0,
        }
    }

    /// The node starts again: its next incarnation has drawn nothing. Takes no memory. Refused with
    /// [`Refusal::IdsUsedUp`] behind the last incarnation, 2^32 - 1, and then nothing has changed.
    pub fn restart(&mut self) -> Result<(), Refusal>
        ensures ok { OnOk result (self.new ≡ nothing_drawn self.old.name (self.old.creation + 1)) }
        ensures last { IsErr result ↔ (self.old.creation ≡ 2 ^ 32 - 1) }
        ensures err { OnErr result (self.new ≡ self.old) }
        ensures only { IsOkUnless result Refusal.IdsUsedUp }
    {
        self.creation = self.creation.next()?;
        self.pids = 0;
        self.references = 0;
        self.unlink_ids = 0;
        Ok(())
    }

    /// The name of the node.
    pub fn name(&self) -> &NodeName
        ensures { result.now ≡ self.now.name }
    {
        &self.name
    }

    /// The incarnation of the node.
    pub fn creation(&self) -> Creation
        ensures { result ≡ self.now.creation }
    {
        self.creation
    }

    /// How many pids were drawn.
    pub fn pids(&self) -> u32
        ensures { result ≡ self.now.pids }
    {
        self.pids
    }

    /// How many references were drawn.
    pub fn references(&self) -> u32
        ensures { result ≡ self.now.references }
    {
        self.references
    }

    /// How many unlink ids were drawn.
    pub fn unlink_ids(&self) -> u64
        ensures { result ≡ self.now.unlink_ids }
    {
        self.unlink_ids
    }

    /// The id that the next draw of a pid gives, or its refusal. Draws nothing, and takes no memory.
    pub fn peek_pid(&self) -> Result<u32, Refusal>
        ensures { result ≡ ok_or (id_of self.now draw.Pid) Refusal.IdsUsedUp }
    {
        self.pids.checked_add(1).ok_or(Refusal::IdsUsedUp)
    }

    /// The count that the next draw of a reference gives, or its refusal. Draws nothing, and takes no
    /// memory.
    pub fn peek_reference(&self) -> Result<u32, Refusal>
        ensures { result ≡ ok_or (id_of self.now draw.Reference) Refusal.IdsUsedUp }
    {
        if self.references >= MOST_REFERENCES {
            return Err(Refusal::IdsUsedUp);
        }
        Ok(self.references + 1)
    }

    /// The unlink id that the next draw gives, or its refusal. Draws nothing, and takes no memory.
    pub fn peek_unlink_id(&self) -> Result<u64, Refusal>
        ensures { result ≡ ok_or (id_of self.now draw.UnlinkId) Refusal.IdsUsedUp }
    {
        self.unlink_ids.checked_add(1).ok_or(Refusal::IdsUsedUp)
    }

    /// Draws the id of a pid: 1, 2 and so on up to 2^32 - 1, and then [`Refusal::IdsUsedUp`] for
    /// good. Takes no memory, and a refused draw changes nothing. (ERTS User's Guide, External Term
    /// Format, NEW_PID_EXT.)
    pub fn next_pid(&mut self) -> Result<u32, Refusal>
        ensures id { result ≡ ok_or (id_of self.old draw.Pid) Refusal.IdsUsedUp }
        ensures drawn { self.new ≡ drawn self.old draw.Pid }
        ensures err { OnErr result (self.new ≡ self.old) }
    {
        self.pids = self.peek_pid()?;
        Ok(self.pids)
    }

    /// Draws the count of a reference: 1, 2 and so on up to 262,143, and then
    /// [`Refusal::IdsUsedUp`] for good. Takes no memory, and a refused draw changes nothing. (ERTS
    /// User's Guide, External Term Format, NEWER_REFERENCE_EXT.)
    pub fn next_reference(&mut self) -> Result<u32, Refusal>
        ensures id { result ≡ ok_or (id_of self.old draw.Reference) Refusal.IdsUsedUp }
        ensures drawn { self.new ≡ drawn self.old draw.Reference }
        ensures err { OnErr result (self.new ≡ self.old) }
    {
        self.references = self.peek_reference()?;
        Ok(self.references)
    }

    /// Draws an unlink id: 1, 2 and so on up to 2^64 - 1, and then [`Refusal::IdsUsedUp`] for good.
    /// Takes no memory, and a refused draw changes nothing. (ERTS User's Guide, Distribution
    /// Protocol, New Link Protocol.)
    pub fn next_unlink_id(&mut self) -> Result<u64, Refusal>
        ensures id { result ≡ ok_or (id_of self.old draw.UnlinkId) Refusal.IdsUsedUp }
        ensures drawn { self.new ≡ drawn self.old draw.UnlinkId }
        ensures err { OnErr result (self.new ≡ self.old) }
    {
        self.unlink_ids = self.peek_unlink_id()?;
        Ok(self.unlink_ids)
    }

    /// The pid of this id, with serial 0. (ERTS User's Guide, External Term Format, NEW_PID_EXT.)
    ///
    /// # Errors
    /// Where there is no memory for the node's name.
    pub fn pid(&self, id: u32) -> Result<Pid, AllocError>
        ensures pid { IfOk result (λ pid. pid ≡ pid_of self.now id) }
    {
        Ok(Pid {
            node: self.name.atom().clone()?,
            creation: self.creation.number(),
            id,
            serial: 0,
        })
    }

    /// The reference of this count, whose words are the count, 0 and 0. (ERTS User's Guide, External
    /// Term Format, NEWER_REFERENCE_EXT.)
    ///
    /// # Errors
    /// Where there is no memory for the node's name.
    pub fn reference(&self, count: u32) -> Result<Reference, AllocError>
        ensures reference { IfOk result (λ reference. reference ≡ reference_of self.now count) }
    {
        Ok(Reference {
            node: self.name.atom().clone()?,
            creation: self.creation.number(),
            words: ReferenceWords::new(&[count, 0, 0]).unwrap(),
        })
    }
}
