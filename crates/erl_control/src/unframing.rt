//! Reading frames.
ghost use Rattle.std.specs.Prelude.{◌≡◌, ◌≢◌, ◌⊎◌, List, ℕ, Option, Some, None, Result, Ok, Err, IfOk, IfErr, IfSome, IfNone, IsErrOf};
ghost use Rattle.erl_control.specs.declared.signal.Signal.{Signal as TheSignal};
ghost use Rattle.erl_control.specs.declared.signal.Item.{Item};
ghost use Rattle.erl_control.specs.declared.error.FrameError.{FrameError};
ghost use Rattle.erl_control.specs.Answer.{HasBody, IsBegun, IsLong, IsFrameDue};
ghost use Rattle.erl_control.specs.Numbers.{error_of};
ghost use Rattle.erl_control.specs.Parts.{item_in, answer_in};
ghost use Rattle.erl_control.specs.Reading.{IsBody, IsBodyFault};

use crate::control::{signal_at, signal_of};
use crate::error::{FrameError, FrameFault};
use crate::laws::one_answer;
use crate::signal::Item;
use crate::signal_ref::ItemRef;
use byteorder::{BigEndian, ByteOrder};
use std::alloc::Global;

/// The most bytes of a frame after its length.
pub const FRAME_LIMIT: usize = 1_048_576;

/// What follows the length of the frame at the front, where the frame is whole.
fn body_at(bytes: &[u8]) -> Result<Option<&[u8]>, FrameFault>
    ensures some { IfOk result (λ body. IfSome body (λ b. HasBody bytes.now b.now)) }
    ensures none { IfOk result (λ body. IfNone body (IsBegun bytes.now)) }
    ensures err { IfErr result (λ e. (e ≡ FrameFault.TooLong) × IsLong bytes.now) }
{
    if bytes.len() < 4 {
        return Ok(None);
    }
    let (field, rest) = bytes.split_at(4);
    let len = BigEndian::read_u32(field) as usize;
    if len > FRAME_LIMIT {
        return Err(FrameFault::TooLong);
    }
    if rest.len() < len {
        return Ok(None);
    }
    let (body, _) = rest.split_at(len);
    Ok(Some(body))
}

fn item_at(body: &[u8]) -> Result<ItemRef<'_>, FrameFault>
    ensures ok { IfOk result (λ item. IsBody (item_in item) body.now) }
    ensures err { IfErr result (λ e. IsBodyFault body.now (error_of e)) }
{
    match body {
        [] => Ok(ItemRef::Tick),
        [112, text @ ..] => Ok(ItemRef::Signal(signal_at(text)?)),
        _ => Err(FrameFault::NotPassThrough),
    }
}

/// The same as [`frame_at`], but that no clause says that nothing else is due.
fn answer_at(bytes: &[u8]) -> Result<Option<(ItemRef<'_>, usize)>, FrameFault>
    ensures { IsFrameDue bytes.now (answer_in result) }
{
    let Some(body) = body_at(bytes)? else {
        return Ok(None);
    };
    let item = item_at(body)?;
    Ok(Some((item, body.len() + 4)))
}

/// The item of the frame at the front, where it lies in the bytes, and how many bytes the frame
/// takes. None asks for more bytes. It takes no memory. (ERTS User's Guide, Distribution Protocol,
/// Protocol between Connected Nodes.)
///
/// The refusals, in their order: [`FrameFault::TooLong`] for a length above [`FRAME_LIMIT`],
/// [`FrameFault::NotPassThrough`], [`FrameFault::Term`] where the control term doesn't read,
/// [`FrameFault::BadControl`] where it is no control message, [`FrameFault::Term`] where the message
/// doesn't read, [`FrameFault::BadControl`] where bytes are left over, and [`FrameFault::TooLong`]
/// where a message or a reason doesn't fit ([`fits`](crate::fits)).
pub fn frame_at(bytes: &[u8]) -> Result<Option<(ItemRef<'_>, usize)>, FrameFault>
    // What is answered is due, and nothing else is.
    ensures due { IsFrameDue bytes.now (answer_in result) }
    ensures only { (due : Result (Option (Item × ℕ)) FrameError) → IsFrameDue bytes.now due → due ≡ answer_in result }
{
    one_answer();
    answer_at(bytes)
}

fn item_of(alloc: Global, body: &[u8]) -> Result<Item, FrameError>
    ensures ok { IfOk result (λ item. IsBody item body.now) }
    ensures err { IfErr result (λ e. e ≢ FrameError.OutOfMemory → IsBodyFault body.now e) }
    ensures memory { IsErrOf result FrameError.OutOfMemory → (signal : TheSignal) × IsBody (Item.Signal signal) body.now }
{
    match body {
        [] => Ok(Item::Tick),
        [112, text @ ..] => Ok(Item::Signal(signal_of(alloc, text)?)),
        _ => Err(FrameError::NotPassThrough),
    }
}

/// The same as [`unframe`], but that no clause says that nothing else is due.
fn answer_of(alloc: Global, bytes: &[u8]) -> Result<Option<(Item, usize)>, FrameError>
    ensures ok { IfOk result (λ x. IsFrameDue bytes.now (Ok x)) }
    ensures err { IfErr result (λ e. e ≢ FrameError.OutOfMemory → IsFrameDue bytes.now (Err e)) }
    ensures memory { IsErrOf result FrameError.OutOfMemory → (signal : TheSignal) × (n : ℕ) × IsFrameDue bytes.now (Ok (Some (Item.Signal signal, n))) }
{
    let Some(body) = body_at(bytes)? else {
        return Ok(None);
    };
    let made = item_of(alloc, body)?;
    Ok(Some((made, body.len() + 4)))
}

/// Returns the answer of [`frame_at`], with memory of its own. Where the frame carries a signal, want
/// of memory can come in its place.
pub fn unframe(alloc: Global, bytes: &[u8]) -> Result<Option<(Item, usize)>, FrameError>
    // What is answered is due, unless memory ran out.
    ensures ok { IfOk result (λ x. IsFrameDue bytes.now (Ok x)) }
    ensures err { IfErr result (λ e. e ≢ FrameError.OutOfMemory → IsFrameDue bytes.now (Err e)) }
    // What is due is answered, unless memory ran out.
    ensures only { (due : Result (Option (Item × ℕ)) FrameError) → IsFrameDue bytes.now due → (result ≡ due) ⊎ (result ≡ Err FrameError.OutOfMemory) }
    // Memory is asked for only where a signal is due.
    ensures memory { IsErrOf result FrameError.OutOfMemory → (signal : TheSignal) × (n : ℕ) × IsFrameDue bytes.now (Ok (Some (Item.Signal signal, n))) }
{
    one_answer();
    answer_of(alloc, bytes)
}
