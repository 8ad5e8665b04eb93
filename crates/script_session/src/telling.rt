//! The telling of events: lines for machines, and a picture.
ghost use Rattle.std.specs.Prelude.{◌≡◌, ◌++◌, List, ℕ, [], true, false, IfOk, OnOk, codes, string_bytes};
ghost use Rattle.script_json.specs.Reports.{IsLineText, node_text};
ghost use Rattle.script_session.specs.Telling.{IsTold};
ghost use Rattle.node_core.specs.declared.node_event.NodeEvent.{NodeEvent as TheEvent};

use crate::picture::Picture;
use dist_model::Report;
use erl_handshake::Profile;
use erl_names::TrunkId;
use erl_term::Refusal;
use script_json::{event, put_line, put_node};
use serde_json::Value;
use std::alloc::{AllocError, Global};
use world_core::{Frame, NodeEvent};

/// The lines of the events since the last were taken, and a picture of all events, if these are
/// asked for.
#[derive(Drop)]
pub(crate) struct Telling {
    pub(crate) lines: String,
    pub(crate) is_on: bool,
    /// The number of the script's line, from 1.
    pub(crate) line: u64,
    pub(crate) picture: Picture,
}

/// An event before it happens, as far as it will be told.
#[derive(Drop)]
pub(crate) struct Begun {
    /// The event, for its line.
    pub(crate) event: Option<Value>,
    /// The event's connection, for the picture.
    trunk: Option<TrunkId>,
}

// Returns the event as JSON, if events are told.
fn told(alloc: Global, is_on: bool, happens: &NodeEvent) -> Result<Option<Value>, AllocError>
    ensures { IfOk result (λ told. IsTold is_on happens.now told) }
{
    if is_on {
        return Ok(Some(event(alloc, happens)?));
    }
    Ok(None)
}

impl Telling {
    /// Creates a telling of nothing.
    pub(crate) fn off(alloc: Global) -> Telling
        ensures { string_bytes result.lines ≡ [] }
    {
        Telling {
            lines: String::new(alloc),
            is_on: false,
            line: 0,
            picture: Picture::off(),
        }
    }

    /// Tells of a node that comes into the world: appends its line, and adds it to the picture.
    ///
    /// # Errors
    /// [`AllocError`] if out of memory.
    pub(crate) fn join(
        &mut self,
        alloc: Global,
        node: &str,
        cookie: &str,
        profile: Profile,
    ) -> Result<(), AllocError>
        ensures on { self.old.is_on ≡ true →
            OnOk result (string_bytes self.new.lines ≡ string_bytes self.old.lines ++ node_text node.now self.old.line cookie.now profile ++ codes "\n") }
        ensures off { self.old.is_on ≡ false → string_bytes self.new.lines ≡ string_bytes self.old.lines }
        ensures same { self.new.is_on ≡ self.old.is_on }
    {
        self.picture.join(alloc, node)?;
        if self.is_on {
            put_node(alloc, &mut self.lines, node, self.line, cookie, profile)
        } else {
            Ok(())
        }
    }

    /// Returns the event as it is before it happens, if it will be told.
    pub(crate) fn begin(&self, alloc: Global, happens: &NodeEvent) -> Result<Begun, AllocError>
        ensures { IfOk result (λ begun. IsTold self.now.is_on happens.now begun.event) }
    {
        let trunk = self.picture.trunk_of(happens)?;
        let event = told(alloc, self.is_on, happens)?;
        Ok(Begun { event, trunk })
    }

    /// Appends the line of an event with its answer, and a row to the picture.
    ///
    /// # Errors
    /// [`AllocError`] if there is no memory, also if `came` says so of the event: such an event
    /// has no line.
    pub(crate) fn end(
        &mut self,
        alloc: Global,
        node: &str,
        begun: Begun,
        came: &Result<Report<Frame>, Refusal>,
    ) -> Result<(), AllocError>
        ensures on { (happened : TheEvent) → IsTold true happened begun.event →
            OnOk result ((text : List ℕ) × IsLineText node.now self.old.line happened came.now text × (string_bytes self.new.lines ≡ string_bytes self.old.lines ++ text ++ codes "\n")) }
        ensures off { (happened : TheEvent) → IsTold false happened begun.event → OnOk result (string_bytes self.new.lines ≡ string_bytes self.old.lines) }
        ensures same { self.new.is_on ≡ self.old.is_on }
    {
        if matches!(came, Err(Refusal::OutOfMemory)) {
            drop(begun);
            return Err(AllocError);
        }
        let Begun { event, trunk } = begun;
        self.picture.happened(alloc, node, trunk.as_ref(), came)?;
        match event {
            Some(event) => put_line(alloc, &mut self.lines, node, self.line, event, came),
            None => Ok(()),
        }
    }
}
