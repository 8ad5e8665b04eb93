//! The head of a frame.
ghost use Rattle.std.specs.Prelude.{◌≡◌, ◌≤◌, ℕ, length, Option, Result};
ghost use Rattle.erl_control.specs.declared.error.FrameError.{FrameError};
ghost use Rattle.erl_control.specs.declared.signal.Item.{Item};
ghost use Rattle.erl_control.specs.declared.signal.Signal.{Signal as TheSignal};
ghost use Rattle.erl_control.specs.Answer.{IsFrameDue};
ghost use Rattle.erl_control.specs.Frame.{IsFramed, IsSignalFrame};
ghost use Rattle.erl_control.specs.Parts.{item_in, signal_in};
ghost use Rattle.c_library.specs.Parts.{id_in, ArePlaces};
ghost use Rattle.c_library.specs.Frames.{HasOperation, IfSomeRow, IsHead, IsItemHead, IsSignalHead, of_length};

use crate::elements::{ends_of, row_head_at};
use crate::parts::{ErldistPlace, NO_PLACE, Parts, parts_of};
use erl_control::{ItemRef, SignalRef, frame_at};

/// The head of a frame. Offsets count from the first byte of the frame.
#[repr(C)]
#[derive(Clone, Copy, Debug)]
pub struct ErldistFrame {
    /// The number of bytes that the frame takes, or 0 if more bytes are needed.
    pub length: usize,
    /// The Id of UNLINK_ID and UNLINK_ID_ACK, else 0.
    pub id: u64,
    /// The sender: a pid, or a registered name that was monitored.
    pub from: ErldistPlace,
    /// The receiver: a pid, or its registered name.
    pub to: ErldistPlace,
    /// The reference of a monitor.
    pub reference: ErldistPlace,
    /// The message or the reason.
    pub payload: ErldistPlace,
    /// The number of the operation, or 0 of a tick.
    pub operation: u32,
}

/// Returns a head with nothing but a length.
fn of_length(length: usize) -> ErldistFrame
    ensures { result ≡ of_length length }
{
    ErldistFrame {
        length,
        id: 0,
        from: NO_PLACE,
        to: NO_PLACE,
        reference: NO_PLACE,
        payload: NO_PLACE,
        operation: 0,
    }
}

/// Returns the Id of the signal, or 0 if it has none.
fn id_of(signal: &SignalRef<'_>) -> u64
    ensures { result ≡ id_in (signal_in signal.now) }
{
    match signal {
        SignalRef::UnlinkId { id, .. } | SignalRef::UnlinkIdAck { id, .. } => *id,
        SignalRef::Link { .. }
        | SignalRef::Send { .. }
        | SignalRef::RegSend { .. }
        | SignalRef::Exit { .. }
        | SignalRef::Exit2 { .. }
        | SignalRef::Monitor { .. }
        | SignalRef::MonitorName { .. }
        | SignalRef::Demonitor { .. }
        | SignalRef::DemonitorName { .. }
        | SignalRef::MonitorExit { .. }
        | SignalRef::MonitorNameExit { .. } => 0,
    }
}

/// Returns the operation of a frame with a signal, and the places of its parts.
fn row_of(frame: &[u8]) -> Option<(u32, Parts)>
    ensures { (s : TheSignal) → IsSignalFrame s frame.now → IfSomeRow frame.now s result }
{
    let (_, text) = frame.split_at_checked(5)?;
    let ((head, tag), fields) = row_head_at(text)?;
    let Ok(operation) = u32::try_from(tag) else {
        return None;
    };
    let ends = ends_of(head.levels, frame, frame.len() - fields.len());
    Some((operation, parts_of(tag, ends, frame)))
}

/// Returns the head of a frame with the signal.
fn signal_head(frame: &[u8], signal: &SignalRef<'_>) -> ErldistFrame
    requires { IsSignalFrame (signal_in signal.now) frame.now }
    ensures length { result.length ≡ length frame.now }
    ensures head { IsSignalHead frame.now (signal_in signal.now) result }
{
    let Some((operation, parts)) = row_of(frame) else {
        return of_length(frame.len());
    };
    ErldistFrame {
        length: frame.len(),
        id: id_of(signal),
        from: parts.from,
        to: parts.to,
        reference: parts.reference,
        payload: parts.payload,
        operation,
    }
}

/// Returns the head of a frame with the item.
fn item_head(frame: &[u8], item: &ItemRef<'_>) -> ErldistFrame
    requires { IsFramed (item_in item.now) frame.now }
    ensures { IsItemHead frame.now (item_in item.now) result }
{
    match item {
        ItemRef::Tick => of_length(frame.len()),
        ItemRef::Signal(signal) => signal_head(frame, signal),
    }
}

/// Returns the number of the fault or 0, and the head of the frame at the front.
fn head_at(bytes: &[u8]) -> (u32, ErldistFrame)
    ensures due { (due : Result (Option (Item × ℕ)) FrameError) × IsFrameDue bytes.now due × IsHead bytes.now due (result.0, result.1) }
    ensures only { (due : Result (Option (Item × ℕ)) FrameError) → IsFrameDue bytes.now due → IsHead bytes.now due (result.0, result.1) }
{
    match frame_at(bytes) {
        Ok(None) => (0, of_length(0)),
        Ok(Some((item, taken))) => {
            let (frame, _) = bytes.split_at(taken);
            (0, item_head(frame, &item))
        }
        Err(fault) => (u32::from(fault.number()), of_length(0)),
    }
}

/// Returns 0, and writes the head of the frame at the front to `frame`. Returns the number of the
/// fault, 6 to 9, if the bytes are no frame, and writes an empty head. Never allocates. (ERTS User's
/// Guide, Distribution Protocol, Protocol between Connected Nodes.)
#[unsafe(no_mangle)]
pub extern "C" fn erldist_frame_head(bytes: &[u8], frame: &mut ErldistFrame) -> u32
    ensures due { (due : Result (Option (Item × ℕ)) FrameError) × IsFrameDue bytes.now due × IsHead bytes.now due (result, frame.new) }
    ensures only { (due : Result (Option (Item × ℕ)) FrameError) → IsFrameDue bytes.now due → IsHead bytes.now due (result, frame.new) }
{
    let (fault, head) = head_at(bytes);
    *frame = head;
    fault
}
